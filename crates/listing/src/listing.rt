// The listing of a day's file: its last sheet, or how the file is refused.
ghost use Rattle.std.specs.Prelude.{◌≡◌};
ghost use Rattle.sheet.specs.Calls.{reported};
ghost use Rattle.listing.specs.Listing.{sheet_text, file_text, listed};
ghost use Rattle.listing.specs.Handed.{PutText, Blank};

use dayfile::read;
use dayfile::refusals::NO_SHEET;
use sheet::Sheet;

// "The input is at most 65,536 bytes": a longer one is no day's file.
const MOST_BYTES: usize = 65_536;

// The text is the first `size` bytes; zeros follow. An array and its size, since C takes it by this layout.
#[repr(C)]
#[derive(Clone, Copy)]
pub struct Listing {
    pub text: [u8; 8192],
    pub size: usize,
}

// Lists the last sheet of a file.
pub fn list(file: &[u8]) -> Listing
    ensures { result ≡ listed file.now }
{
    let mut listing = Listing::empty();
    listing.put_text(file);
    listing
}

impl Listing {
    // Room for the longest listing: 200 spaces and three lines more, none of more than 33 bytes.
    fn empty() -> Listing
        ensures { Blank result }
    {
        Listing {
            text: [0; 8192],
            size: 0,
        }
    }

    // Puts the text of a file.
    fn put_text(&mut self, file: &[u8])
        requires { self.old.size ≡ 0 }
        ensures { PutText self.old (file_text file.now) self.new }
    {
        if MOST_BYTES < file.len() {
            self.put_refusal(NO_SHEET, 0);
            return;
        }
        let reading = read(file);
        if reading.number != 0 {
            self.put_refusal(reading.number, reading.position);
            return;
        }
        self.put_sheet(reading.sheet, reading.justified);
    }

    // Puts the text of a sheet that can be reported.
    fn put_sheet(&mut self, sheet: Sheet, justified: u8)
        requires { (self.old.size ≡ 0) × ((reported sheet justified).number ≡ 0) }
        ensures { PutText self.old (sheet_text sheet) self.new }
    {
        let figures = sheet.figures(justified);
        self.put_figure(b"LENGTH", u64::from(sheet.tonnage_length().0));
        self.put_spaces(sheet.standing().spaces);
        self.put_figure(b"GROSS", figures.gross);
        self.put_figure(b"NET", figures.net);
    }
}
