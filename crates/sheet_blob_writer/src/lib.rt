// The blob writer: the sheet is written behind the room of a header, which changes nothing where it is refused, and then the header.
#![tactic(auto)]

ghost use Rattle.std.specs.Prelude.{◌≡◌, true, ◌+◌, ◌*◌, ◌≤◌, ◌<◌, length};
ghost use Rattle.std.proofs.Math.Option.{some};
ghost use Rattle.std.proofs.lemmas.List.Edits.{sets};
ghost use Rattle.std.specs.Int.{w32};
ghost use Rattle.std.proofs.Common.{to_z};
ghost use Rattle.whole.specs.Numbers.{Within};
ghost use Rattle.plane.specs.Keys.{point, InRange};
ghost use Rattle.lent.specs.Answered.{Answered};
ghost use Rattle.lent.specs.Told.{number_of};
ghost use Rattle.table_check.specs.Framing.{FrameInRange, frame_held};
ghost use Rattle.sheet_coordinate.specs.Coordinate.{held_of};
ghost use Rattle.sheet_form.specs.Numbers.{Sheet, members};
ghost use Rattle.sheet_written.specs.Given.{sheet_given};
ghost use Rattle.sheet_blob.specs.Blob.{encode_header};
ghost use Rattle.sheet_blob_written.specs.Normal.{normal_header};
ghost use Rattle.sheet_framed.specs.Framed.{frame_on};
ghost use Rattle.sheet_blob_written.specs.Given.{blob_given, write_blob};
ghost use Rattle.sheet_blob_writer.specs.Corners.{point_in, CornerIn};

use lent::{Reason, Refusal};
use lent_fields::word;
use plane::{Corner, OFFSET};
use table_check::Frame;

// The number that a coordinate's bits are held as.
fn held(b: u32) -> u32
    requires { Within 10_000_000 (to_z w32 b) }
    ensures { result ≡ held_of (to_z w32 b) }
{
    b.wrapping_add(OFFSET)
}

// A corner of the table, off the bytes of a sheet's numbers form.
fn corner(form: &[u8], i: usize) -> Corner
    requires { CornerIn form.now i }
    ensures { InRange result × (point result ≡ point_in form.now i) }
{
    let at = 8 * i + 4;
    Corner {
        x: held(word(form, at, true)),
        y: held(word(form, at + 4, true)),
    }
}

// The frame of the table.
fn frame(form: &[u8]) -> Frame
    requires { (n : Sheet) × (sheet_given members form.now ≡ some n) }
    ensures { FrameInRange result × ((n : Sheet) → sheet_given members form.now ≡ some n → frame_held result ≡ frame_on n) }
{
    table_check::frame_by(3 * word(form, 0, true) as usize, |i| corner(form, i))
}

// Writes the header's 40 bytes: `GP`, version 0, flags 3, the number, and the envelope of the frame.
fn header(number: u32, f: Frame, out: &mut [u8])
    requires { 40 ≤ length out.old }
    ensures { out.new ≡ sets out.old 0 (encode_header (normal_header number (frame_held f))) }
{
    out[0] = b'G';
    out[1] = b'P';
    out[2] = 0;
    out[3] = 3;
    lent_little::put(out, 4, number as u64, 4);
    sheet_envelope::put(sheet_envelope::of_frame(f), out, 8);
}

// Writes the normal bytes of the blob that the numbers give, 42 where they give none. With no room for the header the sheet is tried with none at all,
// so that 42 comes before 40.
pub fn write(numbers: &[u8], out: &mut [u8]) -> Result<u32, Refusal>
    ensures { Answered (write_blob (blob_given members numbers.now)) out.old (number_of result) out.new }
{
    if numbers.len() < 4 {
        return Err(Refusal {
            reason: Reason::NoSheet,
            item: 0,
        });
    }
    if out.len() < 40 {
        return sheet_writer::write(&numbers[4..], &mut out[..0]);
    }
    let size = sheet_writer::write(&numbers[4..], &mut out[40..])?;
    let f = frame(&numbers[4..]);
    header(word(numbers, 0, true), f, out);
    Ok(size + 40)
}
