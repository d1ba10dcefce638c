// What is told of a sheet that is read and not judged: its numbers, and the double areas of its polygons. Each answers its item, or a refusal.
#![tactic(auto)]

ghost use mathlib.Core.List.{◌++◌, flat_map};
ghost use Rattle.std.specs.Prelude.{◌+◌, ◌*◌, ◌≤◌, length, take};
ghost use Rattle.lent.specs.Answered.{Answered, bytes};
ghost use Rattle.lent.specs.Told.{number_of};
ghost use Rattle.lent_little.specs.Held.{held_bytes};
ghost use Rattle.sheet_modes.specs.Held.{around_of};
ghost use Rattle.outcomes.specs.Entries.{first_of, sheet_numbers_by, sheet_areas};

use lent::{Reason, Refusal};
use plane::OFFSET;
use sheet_blob::Opened;

// The numbers of a sheet that is read in a mode: its numbers form as little-endian i32, of a blob its reference-system number first; the item is the number of
// bytes. 52 where the envelope around it isn't the frame.
pub fn numbers(sheet: &[u8], mode: u32, out: &mut [u8]) -> Result<u32, Refusal>
    ensures { Answered (sheet_numbers_by mode sheet.now) out.old (number_of result) out.new }
{
    let mut numbers = [0u32; 16450];
    let (n, around) = sheet_modes::read(sheet, mode, &mut numbers)?;
    if !sheet_modes::framed(&numbers[..n], around) {
        return Err(Refusal {
            reason: Reason::OtherFrame,
            item: 0,
        });
    }
    form(&numbers, n, around, out)
}

// The numbers form: of a blob its number first.
fn form(numbers: &[u32], n: usize, around: Option<Opened>, out: &mut [u8]) -> Result<u32, Refusal>
    requires { (n ≤ length numbers.now) × (n ≤ 16450) }
    ensures { Answered (bytes (length (first_of (around_of around)) + 4 * n) (first_of (around_of around) ++ flat_map held_bytes (take n numbers.now))) out.old (number_of result) out.new }
{
    match around {
        None => {
            if out.len() / 4 < n {
                return Err(Refusal {
                    reason: Reason::Room,
                    item: 0,
                });
            }
            lent_numbers::write(numbers, n, out);
            Ok(4 * n as u32)
        }
        Some(h) => {
            if out.len() / 4 < n + 1 {
                return Err(Refusal {
                    reason: Reason::Room,
                    item: 0,
                });
            }
            lent_numbers::write(numbers, n, &mut out[4..]);
            lent_little::put(out, 0, h.number as u64, 4);
            Ok(4 * (n as u32 + 1))
        }
    }
}

// The double area of each polygon of a sheet that is read in a mode, as a little-endian i64, in number order; the item is the number of polygons. 52 as for the
// numbers. Nothing is judged.
pub fn areas(sheet: &[u8], mode: u32, out: &mut [u8]) -> Result<u32, Refusal>
    ensures { Answered (sheet_areas mode sheet.now) out.old (number_of result) out.new }
{
    let mut numbers = [0u32; 16450];
    let (n, around) = sheet_modes::read(sheet, mode, &mut numbers)?;
    if !sheet_modes::framed(&numbers[..n], around) {
        return Err(Refusal {
            reason: Reason::OtherFrame,
            item: 0,
        });
    }
    let polygons = (numbers[1 + 6 * (numbers[0] - OFFSET) as usize] - OFFSET) as usize;
    let mut areas = [0u64; 64];
    sheet_areas::areas(&numbers, &mut areas[..polygons]);
    lent_sets::each(&areas[..polygons], out)
}
