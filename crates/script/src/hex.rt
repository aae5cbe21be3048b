// Bytes as hex digits, two a byte, the higher first; `-` stands for no bytes. The places of a lent array are written by their numbers:
// what it holds after a `zip` with its `iter_mut` or `chunks_exact_mut` has no name in a proof.
ghost use Rattle.std.specs.Prelude.{◌≡◌, ◌<◌, true};
ghost use Rattle.script.specs.Laid.{fitting, laid};
ghost use Rattle.script.specs.Words.{all_digits};
ghost use Rattle.script.specs.Hex.{is_hex, digit_value, hex_digit, bytes_of, hex_fitting};

// An even number of hex digits, and not none.
pub fn is_hex(word: &[u8]) -> bool
    ensures { result ≡ is_hex word.now }
{
    !word.is_empty() && word.len() % 2 == 0 && all_digits(word)
}

fn all_digits(word: &[u8]) -> bool
    ensures { result ≡ all_digits true word.now }
{
    word.iter()
        .all(|byte| matches!(byte, b'0'..=b'9' | b'a'..=b'f'))
}

// The bytes of hex digits, laid into the front of an array, as many as fit; answers how many.
pub fn bytes(digits: &[u8], into: &mut [u8]) -> usize
    ensures value { result ≡ fitting (bytes_of digits.now) into.old }
    ensures into_after { into.new ≡ laid (bytes_of digits.now) into.old }
{
    let n = into.len().min(digits.len() / 2);
    for (place, pair) in digits.chunks_exact(2).take(n).enumerate() {
        into[place] = digit_value(pair[0]) * 16 + digit_value(pair[1]);
    }
    n
}

// `to_digit` takes A to F too, which are no digits here (digit_value in specs/Hex).
fn digit_value(byte: u8) -> u8
    ensures { (result ≡ digit_value byte) × (result < 16) }
{
    match byte {
        b'0'..=b'9' => byte - b'0',
        b'a'..=b'f' => byte - b'a' + 10,
        _ => 0,
    }
}

// The hex digits of bytes, laid into the front of an array, of as many whole bytes as fit; answers how many digits.
pub fn digits(bytes: &[u8], into: &mut [u8]) -> usize
    ensures value { result ≡ fitting (hex_fitting bytes.now into.old) into.old }
    ensures into_after { into.new ≡ laid (hex_fitting bytes.now into.old) into.old }
{
    let n = bytes.len().min(into.len() / 2);
    for (i, byte) in bytes[..n].iter().enumerate() {
        into[2 * i] = hex_digit(*byte / 16);
        into[2 * i + 1] = hex_digit(*byte % 16);
    }
    2 * n
}

// `char::from_digit` answers an Option of a char, which is no plainer.
fn hex_digit(value: u8) -> u8
    requires { value < 16 }
    ensures { result ≡ hex_digit value }
{
    if value < 10 {
        b'0' + value
    } else {
        b'a' + (value - 10)
    }
}
