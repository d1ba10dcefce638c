// Program `sheetcheck`: reads one sheet of up to 65,536 bytes from standard input (of a longer one, the first 65,536 are read as the whole, and a
// line on standard error says so), and prints its listing.
#![tactic(auto)]

ghost use Rattle.std.specs.Prelude.{◌≡◌, length};

use input::read_full;
use std::io;
use std::io::{Read, Write};

// Room for the longest input, and for the longest listing.
fn room_to_read() -> [u8; 65536]
    ensures { 65536 ≡ length result }
{
    [0; 65_536]
}

fn room_to_print() -> [u8; 6600]
    ensures { 6600 ≡ length result }
{
    [0; 6600]
}

// Says that the input goes on behind the first 65,536 bytes, where it does.
fn say_if_cut<R: Read, W: Write>(input: &mut R, said: &mut W, n: usize) -> io::Result<()> {
    let mut next: [u8; 1] = [0];
    if n == 65_536 && read_full(input, &mut next)? == 1 {
        said.write_all(
            b"sheetcheck: the input is longer than 65,536 bytes, and only these were read\n",
        )?;
    }
    Ok(())
}

fn main(rt: HostRuntime) -> io::Result<()> {
    let mut sheet = rt.stdin();
    let mut input = room_to_read();
    let mut text = room_to_print();
    let n = read_full(&mut sheet, &mut input)?;
    let answer = sheets::sheet_listing(&input[..n], &mut text);
    let size = (answer / 256) as usize;
    if size <= 6600 {
        rt.stdout().write_all(&text[..size])?;
    }
    say_if_cut(&mut sheet, &mut rt.stderr(), n)
}
