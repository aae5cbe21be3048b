// Numbers as bytes ("Numbers are little-endian"), of any width: `to_le_bytes` gives eight, and would ask of every caller that its field has
// no more; `from_le_bytes` takes eight, so that a shorter field would be copied first.
ghost use Rattle.std.specs.Prelude.{◌≡◌, ◌≤◌, length};
ghost use Rattle.dayfile.specs.Numbers.{bytes_of};
ghost use Rattle.dayfile.specs.Handed.{Number};

// Fills a field with the low bytes of a number, the lowest first.
#[tactic(auto, using(crate::proofs::Laws::Numbers::byte_written))]
pub(crate) fn put_number(field: &mut [u8], number: u64)
    ensures { field.new ≡ bytes_of (length field.old) number }
{
    let mut rest = number;
    for byte in field.iter_mut() {
        *byte = (rest % 256) as u8;
        rest /= 256;
    }
}

// The number of a field's bytes.
pub(crate) fn number_at(field: &[u8]) -> u64
    requires { length field.now ≤ 8 }
    ensures { Number (length field.now) field.now result }
{
    let mut number: u64 = 0;
    for byte in field.iter().rev() {
        number = u64::from(*byte) + 256 * number;
    }
    number
}
