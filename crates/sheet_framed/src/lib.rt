// A blob's envelope compared with the frame of the table of a sheet in numbers.
#![tactic(auto)]

ghost use Rattle.std.specs.Prelude.{◌≡◌, ℕ, ◌*◌, ◌+◌, ◌≤◌, length};
ghost use Rattle.table_check.specs.Framing.{FrameInRange, frame_held};
ghost use Rattle.sheet_form.specs.Numbers.{Sheet};
ghost use Rattle.sheet.specs.Held.{SheetHeld};
ghost use Rattle.sheet_edges.specs.Standing.{corner_at};
ghost use Rattle.sheet_envelope.specs.Envelope.{agrees};
ghost use Rattle.sheet_framed.specs.Framed.{frame_on};

use plane::{Corner, OFFSET};
use sheet_envelope::Envelope;
use table_check::Frame;

// Corner i of the table, counted from 0.
fn corner(numbers: &[u32], i: usize) -> Corner
    requires { 2 * i + 3 ≤ length numbers.now }
    ensures { result ≡ corner_at numbers.now (2 * i + 1) }
{
    let at = 2 * i + 1;
    Corner {
        x: numbers[at],
        y: numbers[at + 1],
    }
}

// The frame of the table.
fn frame(numbers: &[u32]) -> Frame
    requires { (limit : ℕ) × (n : Sheet) × SheetHeld limit n numbers.now }
    ensures { FrameInRange result × ((limit : ℕ) (n : Sheet) → SheetHeld limit n numbers.now → frame_held result ≡ frame_on n) }
{
    table_check::frame_by(3 * (numbers[0] - OFFSET) as usize, |i| corner(numbers, i))
}

// The envelope, where there is one, equals the frame of the table.
pub fn framed(numbers: &[u32], envelope: Option<Envelope>) -> bool
    requires { (limit : ℕ) × (n : Sheet) × SheetHeld limit n numbers.now }
    ensures { (limit : ℕ) (n : Sheet) → SheetHeld limit n numbers.now → result ≡ agrees envelope (frame_on n) }
{
    envelope.is_none() || sheet_envelope::agrees(envelope, frame(numbers))
}
