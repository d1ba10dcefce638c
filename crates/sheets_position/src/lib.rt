// The entry that says where in the file: the answer of the numbers entry with room enough, and the byte position of the field at fault.
#![tactic(auto)]

ghost use Rattle.std.specs.Prelude.{◌≡◌, length};
ghost use Rattle.lent.specs.Answered.{Answered};
ghost use Rattle.lent.specs.Told.{number_of};
ghost use Rattle.sheet_modes.specs.Held.{around_of};
ghost use Rattle.outcomes.specs.Entries.{first_of, telling, sheet_position};

use lent::{Reason, Refusal};
use sheet_blob::Opened;

// An answer and a byte position, each as a little-endian u64; the item is their number, 16.
fn tell(answer: u64, position: u64, out: &mut [u8]) -> Result<u32, Refusal>
    ensures { Answered (telling answer position) out.old (number_of result) out.new }
{
    if out.len() < 16 {
        return Err(Refusal {
            reason: Reason::Room,
            item: 0,
        });
    }
    lent_little::put(out, 0, answer, 8);
    lent_little::put(out, 8, position, 8);
    Ok(16)
}

// How many bytes a blob's number takes; 0 where nothing stands around the sheet.
fn first(around: Option<Opened>) -> u32
    ensures { result ≡ length (first_of (around_of around)) }
{
    match around {
        None => 0,
        Some(_) => 4,
    }
}

// The answer of the numbers entry in the mode with room enough, and the byte position of the field at fault, 0 where the sheet is read. In an unknown
// mode the answer told is 57, and 52 where the envelope around the sheet isn't the frame.
pub fn position(sheet: &[u8], mode: u32, out: &mut [u8]) -> Result<u32, Refusal>
    ensures { Answered (sheet_position mode sheet.now) out.old (number_of result) out.new }
{
    let mut numbers = [0u32; 16450];
    match sheet_modes::read(sheet, mode, &mut numbers) {
        Err(fault) => tell(lent::answer(Err(fault.refusal)), fault.position as u64, out),
        Ok((n, around)) => {
            if !sheet_modes::framed(&numbers[..n], around) {
                return tell(
                    lent::answer(Err(Refusal {
                        reason: Reason::OtherFrame,
                        item: 0,
                    })),
                    0,
                    out,
                );
            }
            tell(lent::answer(Ok(first(around) + 4 * n as u32)), 0, out)
        }
    }
}
