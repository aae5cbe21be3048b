// The remarks on a line that is no call, and on a script that is none.
ghost use Rattle.std.specs.Prelude.{◌≡◌, Some};
ghost use Rattle.script.specs.Laid.{fitting, laid};
ghost use Rattle.script.specs.Remarks.{remark_text};

use std::fmt;

#[derive(Clone, Copy, Debug, PartialEq, Eq)]
pub enum Remark {
    UnknownCall,
    WrongNumberOfWords,
    NotANumber,
    NumberTooLarge,
    ListTooLong,
    BufferTooLarge,
    NotAByte,
    FileTooLong,
    NotHex,
    ScriptTooLong,
}

impl fmt::Display for Remark {
    ghost output = { λ remark. Some (remark_text remark) };

    fn fmt<W: fmt::Write>(&self, f: &mut fmt::Formatter<W>) -> fmt::Result {
        f.write_str(text(*self))
    }
}

// The text of a remark, laid into the front of an array, as much as fits; answers how many bytes. The programs print a remark by its
// Display; this is public, docs/PROMISES.md names it, and the theorem `script_remark_text` (demands, NoSecondAnswer) speaks of it.
pub fn remark_text(remark: Remark, into: &mut [u8]) -> usize
    ensures value { result ≡ fitting (remark_text remark) into.old }
    ensures into_after { into.new ≡ laid (remark_text remark) into.old }
{
    lay(text(remark).as_bytes(), into)
}

fn text(remark: Remark) -> &'static str
    ensures { result.now ≡ remark_text remark }
{
    match remark {
        Remark::UnknownCall => "? unknown call",
        Remark::WrongNumberOfWords => "? wrong number of words",
        Remark::NotANumber => "? not a number",
        Remark::NumberTooLarge => "? number too large",
        Remark::ListTooLong => "? list too long",
        Remark::BufferTooLarge => "? buffer too large",
        Remark::NotAByte => "? not a byte",
        Remark::FileTooLong => "? file too long",
        Remark::NotHex => "? not hex",
        Remark::ScriptTooLong => "? script too long",
    }
}

#[tactic(auto, unfolding(crate::specs::Laid::laid))]
fn lay(text: &[u8], into: &mut [u8]) -> usize
    ensures value { result ≡ fitting text.now into.old }
    ensures into_after { into.new ≡ laid text.now into.old }
{
    let n = text.len().min(into.len());
    into[..n].copy_from_slice(&text[..n]);
    n
}
