// The lines of a listing, each put behind its text. By the widths of its numbers no line has more than 33 bytes.
ghost use Rattle.std.specs.Prelude.{◌≡◌, [], ◌∷◌, ◌+◌, ◌*◌, ◌≤◌, length};
ghost use Rattle.measure.specs.Kinds.{kind_of};
ghost use Rattle.listing.specs.Lines.{letter, figure_line, space_line, space_lines, refusal_line};
ghost use Rattle.listing.specs.Listing.{text_size};
ghost use Rattle.listing.specs.Handed.{Room, Put, line_room, PutLines};

use crate::listing::Listing;
use measure::kinds::{Kind, kind_of};
use spaces::space::Space;

impl Listing {
    // Puts the line of a figure in hundredths: its name, then the figure.
    pub(crate) fn put_figure(&mut self, name: &[u8], number: u64)
        requires { (length name.now ≤ 10) × (self.old.size + line_room ≤ text_size) }
        ensures { PutLines self.old (figure_line name.now number) 1 self.new }
    {
        self.put_bytes(name);
        self.put_byte(b' ');
        self.put_hundredths(number, b'\n');
    }

    // Puts the line of a refused file.
    pub(crate) fn put_refusal(&mut self, number: u8, position: usize)
        requires { self.old.size + line_room ≤ text_size }
        ensures { PutLines self.old (refusal_line number position) 1 self.new }
    {
        self.put_bytes(b"REFUSED ");
        self.put_number(u64::from(number), b' ');
        self.put_number(position as u64, b'\n');
    }

    // Puts the lines of some spaces.
    pub(crate) fn put_spaces(&mut self, spaces: &[Space])
        requires { self.old.size + line_room * length spaces.now ≤ text_size }
        ensures { PutLines self.old (space_lines spaces.now) (length spaces.now) self.new }
    {
        for x in spaces {
            self.put_space(*x);
        }
    }

    // Puts the line of a space.
    fn put_space(&mut self, x: Space)
        requires { self.old.size + line_room ≤ text_size }
        ensures { PutLines self.old (space_line x) 1 self.new }
    {
        self.put_number(u64::from(x.id), b' ');
        self.put_number(u64::from(x.within), b' ');
        self.put_letter(x.kind, b' ');
        self.put_number(u64::from(x.standing), b' ');
        self.put_hundredths(u64::from(x.tonnage), b'\n');
    }

    // Puts the letter of a kind and a byte behind it.
    fn put_letter(&mut self, code: u8, behind: u8)
        requires { Room self.old (letter (kind_of code) ∷ behind ∷ []) }
        ensures { Put self.old (letter (kind_of code) ∷ behind ∷ []) self.new }
    {
        self.put_byte(letter_of(kind_of(code)));
        self.put_byte(behind);
    }
}

// The letter of a kind; a question mark where a code stood for none, which no sheet that is read holds.
fn letter_of(kind: Kind) -> u8
    ensures { result ≡ letter kind }
{
    match kind {
        Kind::UnderDeck => b'U',
        Kind::BetweenDeck => b'B',
        Kind::Superstructure => b'S',
        Kind::Hatchway => b'H',
        Kind::Room => b'R',
        Kind::NoKind => b'?',
    }
}
