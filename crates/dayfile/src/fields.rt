// Rows of fields: the numbers of a record or a trailer, each in its own width and with its own range.
ghost use Rattle.std.specs.Prelude.{◌≡◌, ◌≤◌, length};
ghost use Rattle.std.proofs.lemmas.List.Edits.{sets};
ghost use Rattle.dayfile.specs.Fields.{encoded, decoded, size, in_ranges};
ghost use Rattle.dayfile.specs.Handed.{Narrow};

use crate::numbers::{number_at, put_number};

// Writes numbers in fields of these widths, one after the other, from the front of a part of a buffer.
pub(crate) fn put_fields(buf: &mut [u8], widths: &[u8], numbers: &[u64])
    requires { (length widths.now ≡ length numbers.now) × (size widths.now ≤ length buf.old) }
    ensures { buf.new ≡ sets buf.old 0 (encoded widths.now numbers.now) }
{
    let mut at: usize = 0;
    for (width, number) in widths.iter().zip(numbers) {
        let end = at + usize::from(*width);
        put_number(&mut buf[at..end], *number);
        at = end;
    }
}

// Reads the numbers of fields of these widths from the front of some bytes. The widths go by place: after a zip with `iter_mut` what the
// numbers hold is a name of Rattle's own.
#[tactic(auto, using(crate::proofs::Laws::Fields::narrow_at))]
pub(crate) fn get_fields(bytes: &[u8], widths: &[u8], numbers: &mut [u64])
    requires widths_len { (length widths.now ≡ length numbers.old) × (size widths.now ≤ length bytes.now) }
    requires narrow { Narrow widths.now }
    ensures { numbers.new ≡ decoded widths.now bytes.now }
{
    let mut at: usize = 0;
    for (i, number) in numbers.iter_mut().enumerate() {
        let end = at + usize::from(widths[i]);
        *number = number_at(&bytes[at..end]);
        at = end;
    }
}

// Whether every number is from the least to the greatest of its field.
pub(crate) fn in_ranges(numbers: &[u64], least: &[u64], greatest: &[u64]) -> bool
    requires { (length numbers.now ≡ length least.now) × (length numbers.now ≡ length greatest.now) }
    ensures { result ≡ in_ranges least.now greatest.now numbers.now }
{
    let mut ranged = numbers.iter().zip(least.iter().zip(greatest));
    ranged.all(|(number, (least, greatest))| (*least..=*greatest).contains(number))
}
