// A script as a whole, and its lines.
ghost use Rattle.std.specs.Prelude.{◌≡◌, length};
ghost use Rattle.std.specs.Iterator.{YieldsFirstBy, item_count};
ghost use Rattle.script.specs.Text.{room_for_script, lines_of};

use crate::words;

// "The only answer to a script over 1,048,576 bytes, of which no call is made", is a remark.
pub const MOST_BYTES: usize = 1048576;

// Room for a script and a byte more, by which one too long is told; lending it as a slice needs its length.
pub fn script_buffer() -> [u8; 1048577]
    ensures { (result ≡ room_for_script) × (1048577 ≡ length result) }
{
    [0; 1048577]
}

// The lines of a text from the first on, of a script as the programs take them: "a line ends with a newline", and what stands behind the
// last newline is a line too.
#[derive(Drop)]
pub struct Lines<'a>(pub &'a [u8]);

impl<'a> Iterator for Lines<'a> {
    type Item = &'a [u8];

    ghost next_gives = { YieldsFirstBy (λ line. line.now) (λ left. lines_of left.0.now) };

    ghost remaining = { item_count (λ left. lines_of left.0.now) };

    fn next(&mut self) -> Option<&'a [u8]> {
        let text = self.0;
        if text.is_empty() {
            return None;
        }
        let line = words::part_at(text, 0, b'\n');
        self.0 = &text[text.len().min(line.len() + 1)..];
        Some(line)
    }
}
