// The forms of a file (T-05 of document 02), as data: two rows. A field that a form lacks has the width 0: it reads as 0, and
// holds only 0. Nothing else in the library asks which form it has before it.
ghost use Rattle.std.specs.Prelude.{◌≡◌};
ghost use Rattle.dayfile.specs.Forms.{is_form, form_of, form_told, greatest_in, lost as lost_in};
ghost use Rattle.dayfile.specs.Handed.{unless_0};

// A form: the widths of the fields in which forms differ, and the byte of the trailer that tells it. No ghost field says how narrow they
// are: the definitions build forms of their widths alone (specs/Forms `form1`, `form2`), and it would ask its proof of them.
#[derive(Clone, Copy)]
pub struct Form {
    // Of a record's deck.
    pub(crate) deck: u8,
    // Of a record's second zero field.
    pub(crate) zero: u8,
    // Of the vessel number, between the last record and the trailer.
    pub(crate) vessel: u8,
    // The trailer's byte behind the justified mark.
    pub(crate) tells: u8,
}

// How many there are: their numbers are 1 and 2.
const FORMS: u8 = 2;

const FORM_1: Form = Form {
    deck: 0,
    zero: 0,
    vessel: 0,
    tells: 0,
};

const FORM_2: Form = Form {
    deck: 2,
    zero: 2,
    vessel: 4,
    tells: 2,
};

// Whether a number is that of a form.
pub(crate) fn is_form(number: u8) -> bool
    ensures { result ≡ is_form number }
{
    (1..=FORMS).contains(&number)
}

// The form of a number. It is total, as its definition is: a trailer and the C records hold the number, which is that of a form.
#[tactic(auto, using(crate::proofs::Laws::Forms::other_form), unfolding(crate::specs::Forms::form_of))]
pub(crate) fn form_of(number: u8) -> Form
    ensures { result ≡ form_of number }
{
    match number {
        2 => FORM_2,
        _ => FORM_1,
    }
}

// The number of the form that a byte tells.
#[tactic(auto, unfolding(crate::specs::Forms::form_told))]
pub(crate) fn form_told(byte: u64) -> Option<u8>
    ensures { result ≡ unless_0 (form_told byte) (form_told byte) }
{
    if byte == u64::from(FORM_1.tells) {
        Some(1)
    } else if byte == u64::from(FORM_2.tells) {
        Some(2)
    } else {
        None
    }
}

// The greatest number of a field that a form may lack.
pub(crate) fn greatest_in(width: u8, greatest: u64) -> u64
    ensures { result ≡ greatest_in width greatest }
{
    if width == 0 { 0 } else { greatest }
}

// Whether a number is lost in a field that a form may lack.
pub(crate) fn lost(width: u8, number: u32) -> bool
    ensures { result ≡ lost_in width number }
{
    width == 0 && number != 0
}
