// The last sheet of a day's file as a list, or how the file is refused: standard input to standard output. What it prints
// is `listing::list`'s text: that is proved of any reader and writer whose bytes are known, and tested of the two streams.
#![tactic(auto)]

ghost use Rattle.std.specs.Prelude.{◌≡◌, length, OnOk, IfSome};
ghost use Rattle.std.specs.Io.KnownBytes.{Appends};
ghost use Rattle.listing.specs.Listing.{file_text};

use input::read_full;
use listing::list;
use std::io;
use std::io::{Read, Write};

fn main(rt: HostRuntime) -> io::Result<()> {
    list_input(&mut rt.reader(), &mut io::writer(&rt))
}

// Lists the file that is the whole input. After an error what stands in the output is left open.
fn list_input<R: Read, W: Write>(input: &mut R, output: &mut W) -> io::Result<()>
    ensures { OnOk result (IfSome (R.remaining input.old)
        (λ file. Appends (W.contents output.old) (W.contents output.new) (file_text file))) }
{
    let mut file = file_buffer();
    let n = read_full(input, &mut file)?;
    let listing = list(&file[..n]);
    output.write_all(&listing.text[..listing.size])
}

// Room for a day's file and a byte more, by which one too long is told. The `ensures` gives only the length, which lending
// the array as a slice needs.
fn file_buffer() -> [u8; 65537]
    ensures { 65537 ≡ length result }
{
    [0; 65537]
}
