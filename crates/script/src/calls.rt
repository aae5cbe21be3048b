// What a line of a program is, by the forms of the program's calls. A line that is no call gets the first remark that fits:
// of its first word, of the number of its words, then of the words behind the call from left to right.
ghost use Rattle.std.specs.Prelude.{◌≡◌};
ghost use Rattle.script.specs.Words.{parts_of};
ghost use Rattle.script.specs.Calls.{survey_forms, figures_forms, line_by, is_passed, is_form, place_by, place_of, judged};
ghost use Rattle.script.specs.Calls.{judged_number, judged_up_to, judged_list, judged_hex, judged_word, place_among};

use crate::remarks::Remark;
use crate::{hex, words};

const MOST_NUMBERS: usize = 1024;

// Two digits a byte.
const MOST_DIGITS: usize = 131072;

// A line of `survey`, by the forms of its calls: passed over, or a call by the place of its form from 0: an enum would be each program's
// own, and line_by and place_of in specs/ speak of places.
pub fn survey_line(line: &[u8]) -> Result<Option<usize>, Remark>
    ensures { result ≡ line_by survey_forms line.now }
{
    line_by(
        b"open number\n\
          open number vessel\n\
          enter number number number number number list list\n\
          enter number number number number number list list number\n\
          enter number number number number number list list number number\n\
          enter number number number number number list list number number number\n\
          tank number number number number number list list\n\
          tank number number number number number list list number\n\
          withdraw number\n\
          mark number number\n\
          undo\n\
          redo\n\
          counts\n\
          report number\n\
          write number number size\n\
          write number number size number\n\
          writef number number size fill\n\
          writef number number size fill number\n\
          read hex\n\
          before number hex\n\
          move hex number number size fill\n\
          zones number number number number\n\
          spaces",
        line,
    )
}

// A line of `figures`.
pub fn figures_line(line: &[u8]) -> Result<Option<usize>, Remark>
    ensures { result ≡ line_by figures_forms line.now }
{
    line_by(
        b"space number number number list list\n\
          hatchways number number\n\
          ballast number number",
        line,
    )
}

// A line by forms, one a line: a call's name, and behind it what each of its words is to be.
#[tactic(auto, using(crate::proofs::Laws::Parts::parts_counted), unfolding(crate::specs::Calls::line_by))]
fn line_by(forms: &[u8], line: &[u8]) -> Result<Option<usize>, Remark>
    ensures { result ≡ line_by (parts_of 10 forms.now) line.now }
{
    if is_passed(line) {
        return Ok(None);
    }
    let Some(place) = place_of(forms, line) else {
        return Err(Remark::UnknownCall);
    };
    judge(words::part(forms, place, b'\n'), line)?;
    Ok(Some(place))
}

// Empty, or a note.
fn is_passed(line: &[u8]) -> bool
    ensures { result ≡ is_passed line.now }
{
    matches!(line.first(), None | Some(b'#'))
}

// Whether a form has the line's name and, where they are counted, as many words: one test with a flag, as is_form and place_by in specs/.
#[tactic(auto, using(crate::proofs::Laws::Parts::parts_counted))]
fn is_form(form: &[u8], line: &[u8], counted: bool) -> bool
    ensures { result ≡ is_form counted line.now form.now }
{
    words::same(words::word(form, 0), words::word(line, 0))
        && (!counted || words::marks(form, b' ') == words::marks(line, b' '))
}

// The place of the first such form.
fn place_by(forms: &[u8], line: &[u8], counted: bool) -> Option<usize>
    ensures { result ≡ place_among (parts_of 10 forms.now) (place_by counted line.now (parts_of 10 forms.now)) }
{
    forms
        .split(|byte| *byte == b'\n')
        .position(|form| is_form(form, line, counted))
}

// The place of a line's form, told by how many words there are; where none of the name has as many, it is the first of the name.
#[tactic(auto, unfolding(crate::specs::Calls::place_of))]
fn place_of(forms: &[u8], line: &[u8]) -> Option<usize>
    ensures { result ≡ place_among (parts_of 10 forms.now) (place_of line.now (parts_of 10 forms.now)) }
{
    place_by(forms, line, true).or_else(|| place_by(forms, line, false))
}

// The words of a line, by the form of its call.
#[tactic(auto, using(crate::proofs::Laws::Calls::words_counted))]
fn judge(form: &[u8], line: &[u8]) -> Result<(), Remark>
    ensures { result ≡ judged form.now line.now }
{
    if words::marks(line, b' ') != words::marks(form, b' ') {
        return Err(Remark::WrongNumberOfWords);
    }
    let asked = form.split(|byte| *byte == b' ');
    for (asked, word) in asked.zip(line.split(|byte| *byte == b' ')).skip(1) {
        judge_word(asked, word)?;
    }
    Ok(())
}

// A word, by the form's word for it. A `match` on byte strings tells a proof their lengths alone, so these are tests.
#[tactic(auto, unfolding(crate::specs::Calls::judged_word))]
fn judge_word(asked: &[u8], word: &[u8]) -> Result<(), Remark>
    ensures { result ≡ judged_word asked.now word.now }
{
    if words::same(asked, b"list") {
        return judge_list(word);
    }
    if words::same(asked, b"size") {
        return judge_up_to(word, words::GREATEST_SIZE, Remark::BufferTooLarge);
    }
    if words::same(asked, b"fill") {
        return judge_up_to(word, u64::from(u8::MAX), Remark::NotAByte);
    }
    if words::same(asked, b"vessel") {
        return judge_up_to(word, u64::from(u32::MAX), Remark::NumberTooLarge);
    }
    if words::same(asked, b"hex") {
        return judge_hex(word);
    }
    judge_number(word)
}

// A number, and at most a greatest one.
fn judge_up_to(word: &[u8], greatest: u64, remark: Remark) -> Result<(), Remark>
    ensures { result ≡ judged_up_to greatest remark word.now }
{
    if greatest < words::number_in(word)? {
        return Err(remark);
    }
    Ok(())
}

// Its length is judged first, whatever its characters.
#[tactic(auto, unfolding(crate::specs::Calls::judged_hex))]
fn judge_hex(word: &[u8]) -> Result<(), Remark>
    ensures { result ≡ judged_hex word.now }
{
    if words::is_empty_list(word) {
        return Ok(());
    }
    if MOST_DIGITS < word.len() {
        return Err(Remark::FileTooLong);
    }
    if !hex::is_hex(word) {
        return Err(Remark::NotHex);
    }
    Ok(())
}

fn judge_number(word: &[u8]) -> Result<(), Remark>
    ensures { result ≡ judged_number word.now }
{
    words::number_in(word)?;
    Ok(())
}

// Its commas are counted first, whatever stands between them.
#[tactic(auto, using(crate::proofs::Laws::Parts::parts_counted), unfolding(crate::specs::Calls::judged_list))]
fn judge_list(list: &[u8]) -> Result<(), Remark>
    ensures { result ≡ judged_list list.now }
{
    if words::is_empty_list(list) {
        return Ok(());
    }
    if MOST_NUMBERS <= words::marks(list, b',') {
        return Err(Remark::ListTooLong);
    }
    for number in list.split(|byte| *byte == b',') {
        judge_number(number)?;
    }
    Ok(())
}
