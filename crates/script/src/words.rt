// Words of a line, and the numbers and lists in them. A text is cut at a mark: a script at its line ends, a line at its
// spaces, a list at its commas; two marks side by side have an empty part between them, and so has a mark at an end.
ghost use Rattle.std.specs.Prelude.{◌≡◌, true, false, [], drop, get_or, Option, ok_or};
ghost use Rattle.script.specs.declared.remarks.Remark.TheVariants.{NumberTooLarge};
ghost use Rattle.script.specs.Laid.{fitting, laid};
ghost use Rattle.script.specs.Words.{parts_of, first, marks_in, same_text, word_at};
ghost use Rattle.script.specs.Words.{all_digits, value_behind, held, number_of, value_in};
ghost use Rattle.script.specs.Words.{id_of, code_of, measure_of, size_of, is_empty_list, measures_of};

use crate::remarks::Remark;

// The size of the greatest buffer that a line can ask for.
pub(crate) const GREATEST_SIZE: u64 = 65536;

// The part that begins at a place, up to the mark that ends it; past the text's end an empty one.
#[tactic(auto, using(crate::proofs::Laws::Parts::no_part))]
pub fn part_at(text: &[u8], at: usize, mark: u8) -> &[u8]
    ensures { result.now ≡ first mark (drop at text.now) }
{
    if text.len() < at {
        return &text[..0];
    }
    part(&text[at..], 0, mark)
}

// How many marks a text has: one fewer than parts. A `for` and no `filter` and `count`, which takes four times as many steps a byte.
pub fn marks(text: &[u8], mark: u8) -> usize
    ensures { result ≡ marks_in mark text.now }
{
    let mut n = 0;
    for byte in text {
        if *byte == mark {
            n += 1;
        }
    }
    n
}

// The part behind the first k marks, empty where there are fewer.
pub(crate) fn part(text: &[u8], k: usize, mark: u8) -> &[u8]
    ensures { result.now ≡ get_or (parts_of mark text.now) k [] }
{
    text.split(|byte| *byte == mark)
        .nth(k)
        .unwrap_or(&text[..0])
}

// The word of a line at a place from 0, empty where it has fewer.
pub fn word(line: &[u8], place: usize) -> &[u8]
    ensures { result.now ≡ word_at place line.now }
{
    part(line, place, b' ')
}

// Two texts; `==` alone takes no literal beside a slice.
pub fn same(a: &[u8], b: &[u8]) -> bool
    ensures { result ≡ same_text a.now b.now }
{
    a == b
}

// A word as a number: one or more digits, zeros in front too, with a value from 0 to 2^64-1.
pub fn number_in(word: &[u8]) -> Result<u64, Remark>
    ensures { result ≡ number_of word.now }
{
    if word.is_empty() || !all_digits(word) {
        return Err(Remark::NotANumber);
    }
    value_of(word).ok_or(Remark::NumberTooLarge)
}

fn all_digits(word: &[u8]) -> bool
    ensures { result ≡ all_digits false word.now }
{
    word.iter().all(u8::is_ascii_digit)
}

// The value of digits.
#[tactic(auto, using(crate::proofs::Laws::Numbers::digits_valued))]
fn value_of(digits: &[u8]) -> Option<u64>
    requires { all_digits false digits.now ≡ true }
    ensures { ok_or result NumberTooLarge ≡ held (value_behind 0 digits.now) }
{
    let mut value: u64 = 0;
    for digit in digits {
        value = value
            .checked_mul(10)?
            .checked_add(u64::from(*digit - b'0'))?;
    }
    Some(value)
}

// The number of a word; 0 where it is none.
pub fn value_in(word: &[u8]) -> u64
    ensures { result ≡ value_in (number_of word.now) }
{
    number_in(word).unwrap_or(0)
}

// A number as an id, as a kind, standing or justified mark, and as a measure. What the type can't hold is its greatest
// value, which lies outside the range too. One generic function would be no plainer: it would need a law of `TryFrom<u64>` of any type
// and its greatest value, for what is one line in each of the three.
pub fn id_in(word: &[u8]) -> u16
    ensures { result ≡ id_of word.now }
{
    u16::try_from(value_in(word)).unwrap_or(u16::MAX)
}

pub fn code_in(word: &[u8]) -> u8
    ensures { result ≡ code_of word.now }
{
    u8::try_from(value_in(word)).unwrap_or(u8::MAX)
}

pub fn measure_in(word: &[u8]) -> u32
    ensures { result ≡ measure_of word.now }
{
    u32::try_from(value_in(word)).unwrap_or(u32::MAX)
}

// A number as the size of a buffer, the greatest where it is above that: so small that the cast loses nothing.
pub fn size_in(word: &[u8]) -> usize
    ensures { result ≡ size_of word.now }
{
    value_in(word).min(GREATEST_SIZE) as usize
}

// `-` is the empty list.
pub fn is_empty_list(list: &[u8]) -> bool
    ensures { result ≡ is_empty_list list.now }
{
    same(list, b"-")
}

// The measures of a list, laid into the front of an array, as many as fit; answers how many. What a lent array holds after a `zip` with
// its `iter_mut` has no name in a proof, so `enumerate` gives the places.
pub fn measures(list: &[u8], into: &mut [u32]) -> usize
    ensures value { result ≡ fitting (measures_of list.now) into.old }
    ensures into_after { into.new ≡ laid (measures_of list.now) into.old }
{
    if is_empty_list(list) {
        return 0;
    }
    let room = into.len();
    let mut n = 0;
    for (place, number) in list.split(|byte| *byte == b',').take(room).enumerate() {
        into[place] = measure_in(number);
        n = place + 1;
    }
    n
}
