// Calls the entries as the frames of standard input say, and prints for each frame what was answered and a checksum of the lent bytes.
// A frame: a byte for the entry, u32 LE length of its input, u32 LE number of lent bytes, the input. hosts/independent makes the frames and
// the expected lines.
#![tactic(auto)]

ghost use Rattle.std.specs.Prelude.{◌≡◌, ◌+◌, ◌≤◌, ◌<◌, length};

use input::read_full;
use std::io;
use std::io::{Print, Read};

// The little-endian u32 at a place of a frame.
fn number(frame: &[u8], at: usize) -> usize
    requires { at + 4 ≤ length frame.now }
    ensures { result < 4294967296 }
{
    usize::from(frame[at])
        + 256 * usize::from(frame[at + 1])
        + 65_536 * usize::from(frame[at + 2])
        + 16_777_216 * usize::from(frame[at + 3])
}

// The checksum of all the bytes, so that a change at any place shows.
fn checksum(bytes: &[u8]) -> u64
    ensures { result < 1000000007 }
{
    let mut h: u64 = 0;
    for b in bytes {
        h = (h * 31 + *b as u64) % 1_000_000_007;
    }
    h
}

// Prints a line: the answer and the checksum.
fn line(rt: &impl Print, answer: u64, sum: u64) -> io::Result<()> {
    println!(rt; "{answer} {sum}")
}

// What the boundary entry answers; the number of the polygon stands before the sheet, as a little-endian u32.
fn boundary(input: &[u8], lent: &mut [u8]) -> u64 {
    if input.len() < 4 {
        return 255;
    }
    sheets::sheet_boundary(&input[4..], number(input, 0) as u32, lent)
}

// What the position entry answers; the mode stands before the sheet, as a little-endian u32.
fn position(input: &[u8], lent: &mut [u8]) -> u64 {
    if input.len() < 4 {
        return 255;
    }
    sheets::sheet_position(&input[4..], number(input, 0) as u32, lent)
}

// What the entry for double areas answers; the mode stands before the sheet, as a little-endian u32.
fn areas(input: &[u8], lent: &mut [u8]) -> u64 {
    if input.len() < 4 {
        return 255;
    }
    sheets::sheet_areas(&input[4..], number(input, 0) as u32, lent)
}

// What is at a point; the mode, the way, and the point's x and y stand before the sheet, each as 4 little-endian bytes.
fn at(input: &[u8]) -> u64 {
    if input.len() < 16 {
        return 255;
    }
    sheets::sheet_at(
        &input[16..],
        number(input, 0) as u32,
        number(input, 4) as u32,
        (number(input, 8) as u32).cast_signed(),
        (number(input, 12) as u32).cast_signed(),
    )
}

// What the index entry answers; the mode stands before the sheet, as a little-endian u32.
fn index(input: &[u8], lent: &mut [u8]) -> u64 {
    if input.len() < 4 {
        return 255;
    }
    sheets::sheet_index(&input[4..], number(input, 0) as u32, lent)
}

// What the entries with an index answer: 16 owner sets, 17 owners, 18 boundary, 20 rings.
fn with_index(entry: u8, asked: &[u8], index: &[u8], sheet: &[u8], lent: &mut [u8]) -> u64
    requires { 12 ≤ length asked.now }
{
    let mode = number(asked, 0) as u32;
    let way = number(asked, 4) as u32;
    let polygon = number(asked, 8) as u32;
    match entry {
        16 => sheets::sheet_owner_sets_indexed(sheet, index, mode, lent),
        17 => sheets::sheet_owners_indexed(sheet, index, mode, way, lent),
        18 => sheets::sheet_boundary_indexed(sheet, index, mode, way, polygon, lent),
        20 => sheets::sheet_rings_indexed(sheet, index, mode, way, polygon, lent),
        _ => 255,
    }
}

// The same; the mode, the way, the number of the polygon and the length of the index stand before the index, each as a little-endian u32, and behind it the sheet.
fn indexed(entry: u8, input: &[u8], lent: &mut [u8]) -> u64 {
    if input.len() < 16 {
        return 255;
    }
    let size = number(input, 12);
    let rest = &input[16..];
    if rest.len() < size {
        return 255;
    }
    with_index(entry, input, &rest[..size], &rest[size..], lent)
}

// What the entries answer that take what is asked as numbers: 7 numbers, 8 owner sets, 9 owners, 10 boundary, 11 listing, 19 rings, 21 the room of rings. The mode, the way and the number of
// the polygon stand before the sheet, each as a little-endian u32, also where the entry doesn't take it.
fn by(entry: u8, input: &[u8], lent: &mut [u8]) -> u64 {
    if input.len() < 12 {
        return 255;
    }
    let mode = number(input, 0) as u32;
    let way = number(input, 4) as u32;
    let polygon = number(input, 8) as u32;
    match entry {
        7 => sheets::sheet_numbers_by(&input[12..], mode, lent),
        8 => sheets::sheet_owner_sets_by(&input[12..], mode, lent),
        9 => sheets::sheet_owners_by(&input[12..], mode, way, lent),
        10 => sheets::sheet_boundary_by(&input[12..], mode, way, polygon, lent),
        11 => sheets::sheet_listing_by(&input[12..], mode, way, lent),
        19 => sheets::sheet_rings(&input[12..], mode, way, polygon, lent),
        21 => sheets::sheet_ring_room(&input[12..], mode, way, polygon),
        _ => 255,
    }
}

// What the entry answers: 0 numbers, 1 write, 2 owner sets, 3 owners, 4 boundary, 5 listing, 6 position, 7 to 11 those by a mode and a way, 12 write blob, 13 areas, 14 at a
// point, 15 index, 16 to 18 and 20 those with an index, 19 rings, 21 the room of rings. Any other answers 255, a code that no entry gives.
fn answer(entry: u8, input: &[u8], lent: &mut [u8]) -> u64 {
    match entry {
        0 => sheets::sheet_numbers(input, lent),
        1 => sheets::sheet_write(input, lent),
        2 => sheets::sheet_owner_sets(input, lent),
        3 => sheets::sheet_owners(input, lent),
        4 => boundary(input, lent),
        5 => sheets::sheet_listing(input, lent),
        6 => position(input, lent),
        12 => sheets::sheet_write_blob(input, lent),
        13 => areas(input, lent),
        14 => at(input),
        15 => index(input, lent),
        16 => indexed(entry, input, lent),
        17 => indexed(entry, input, lent),
        18 => indexed(entry, input, lent),
        20 => indexed(entry, input, lent),
        _ => by(entry, input, lent),
    }
}

// Calls the entry with the lent bytes, and prints its line.
fn call(rt: &impl Print, entry: u8, input: &[u8], lent: &mut [u8]) -> io::Result<()> {
    let answer = answer(entry, input, lent);
    let sum = checksum(lent);
    line(rt, answer, sum)
}

// Room for the longest input.
fn room_to_read() -> [u8; 200000]
    ensures { 200000 ≡ length result }
{
    [0; 200_000]
}

// The bytes to lend, each 170.
fn room_to_lend() -> [u8; 160000]
    ensures { 160000 ≡ length result }
{
    [170; 160_000]
}

// At most 160,000, the bytes that there are to lend.
fn capped(room: usize) -> usize
    ensures { result ≤ 160000 }
{
    room.min(160_000)
}

// The call of a frame whose input was read: so many lent bytes, each 170 before.
fn lend(rt: &impl Print, entry: u8, input: &[u8], room: usize) -> io::Result<()>
    requires { room ≤ 160000 }
{
    let mut lent = room_to_lend();
    call(rt, entry, input, &mut lent[..room])
}

// Reads a frame's input and makes its call; false where the input is cut short.
fn read<R: Read>(
    rt: &impl Print,
    frames: &mut R,
    entry: u8,
    input: &mut [u8],
    room: usize,
) -> io::Result<bool>
    requires { room ≤ 160000 }
{
    if read_full(frames, input)? < input.len() {
        return Ok(false);
    }
    lend(rt, entry, input, room)?;
    Ok(true)
}

// One frame; false at the end of the frames, or at one that is cut short or too long.
fn frame<R: Read>(rt: &impl Print, frames: &mut R) -> io::Result<bool> {
    let mut head = [0u8; 9];
    if read_full(frames, &mut head)? < 9 {
        return Ok(false);
    }
    let size = number(&head, 1);
    let room = capped(number(&head, 5));
    if size > 200_000 {
        return Ok(false);
    }
    let mut input = room_to_read();
    read(rt, frames, head[0], &mut input[..size], room)
}

// The frames one after another, at most 10,000.
fn main(rt: HostRuntime) -> io::Result<()> {
    let mut frames = rt.stdin();
    for _ in 0..10_000 {
        if !frame(&rt, &mut frames)? {
            break;
        }
    }
    Ok(())
}
