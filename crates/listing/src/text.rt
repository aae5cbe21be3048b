// Text put behind that of a listing. Each function asks for just the room of what it puts. Decimals are put digit by digit: no contract of
// `write!` into a fixed buffer says the digits, and the library uses no heap for a `String`. They are laid from a place on, and the
// listing's size moves once behind each number: at every digit it would be a load and a store that the next one waits for.
ghost use Rattle.std.specs.Prelude.{[], ◌∷◌, ◌++◌};
ghost use Rattle.listing.specs.Text.{digit, decimal, hundredths};
ghost use Rattle.listing.specs.Handed.{Room, Put, up_to};

use crate::listing::Listing;

impl Listing {
    // Puts a byte.
    pub(crate) fn put_byte(&mut self, byte: u8)
        requires { Room self.old (byte ∷ []) }
        ensures { Put self.old (byte ∷ []) self.new }
    {
        self.size = lay_byte(&mut self.text, self.size, byte);
    }

    // Puts some bytes.
    pub(crate) fn put_bytes(&mut self, bytes: &[u8])
        requires { Room self.old bytes.now }
        ensures { Put self.old bytes.now self.new }
    {
        let end = self.size + bytes.len();
        self.text[self.size..end].copy_from_slice(bytes);
        self.size = end;
    }

    // Puts a number in decimal and a byte behind it.
    pub(crate) fn put_number(&mut self, number: u64, behind: u8)
        requires { Room self.old (decimal number ++ (behind ∷ [])) }
        ensures { Put self.old (decimal number ++ (behind ∷ [])) self.new }
    {
        self.size = lay_number(&mut self.text, self.size, number, behind);
    }

    // Puts hundredths with two decimals, and a byte behind them.
    pub(crate) fn put_hundredths(&mut self, number: u64, behind: u8)
        requires { Room self.old (hundredths number ++ (behind ∷ [])) }
        ensures { Put self.old (hundredths number ++ (behind ∷ [])) self.new }
    {
        let tenths = lay_number(&mut self.text, self.size, number / 100, b'.');
        let last = lay_digit(&mut self.text, tenths, number / 10);
        let end = lay_digit(&mut self.text, last, number);
        self.size = lay_byte(&mut self.text, end, behind);
    }
}

// Lays a number in decimal and a byte behind it, from a place on; answers the place behind them, as the others here do.
fn lay_number(text: &mut [u8; 8192], at: usize, number: u64, behind: u8) -> usize
    requires { Room (up_to at text.old) (decimal number ++ (behind ∷ [])) }
    ensures { Put (up_to at text.old) (decimal number ++ (behind ∷ [])) (up_to result text.new) }
{
    let end = lay_decimal(text, at, number);
    lay_byte(text, end, behind)
}

// Lays a number in decimal: what stands before its last digit, then that digit.
fn lay_decimal(text: &mut [u8; 8192], at: usize, number: u64) -> usize
    requires { Room (up_to at text.old) (decimal number) }
    ensures { Put (up_to at text.old) (decimal number) (up_to result text.new) }
{
    if number < 10 {
        return lay_digit(text, at, number);
    }
    let last = lay_decimal(text, at, number / 10);
    lay_digit(text, last, number)
}

// Lays the last digit of a number.
fn lay_digit(text: &mut [u8; 8192], at: usize, number: u64) -> usize
    requires { Room (up_to at text.old) (digit number ∷ []) }
    ensures { Put (up_to at text.old) (digit number ∷ []) (up_to result text.new) }
{
    lay_byte(text, at, b'0' + (number % 10) as u8)
}

// Lays a byte.
fn lay_byte(text: &mut [u8; 8192], at: usize, byte: u8) -> usize
    requires { Room (up_to at text.old) (byte ∷ []) }
    ensures { Put (up_to at text.old) (byte ∷ []) (up_to result text.new) }
{
    text[at] = byte;
    at + 1
}
