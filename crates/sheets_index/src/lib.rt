// The entry that builds the index: for each triangle and side the number of the triangle with the reversed side, once the table has passed the rules.
#![tactic(auto)]

ghost use Rattle.lent.specs.Answered.{Answered};
ghost use Rattle.lent.specs.Told.{number_of};
ghost use Rattle.sheet_form.specs.Numbers.{Sheet, members};
ghost use Rattle.sheet.specs.Held.{SheetHeld};
ghost use Rattle.sheet_modes.specs.Modes.{framed};
ghost use Rattle.sheet_modes.specs.Held.{around_of};
ghost use Rattle.outcomes.specs.Entries.{index_outcome, sheet_index};

use lent::Refusal;
use plane::OFFSET;
use sheet_blob::Opened;

// The sheet in numbers, judged with its polygons left out: the table rules, the envelope around it, 52 where that isn't the frame; and then the index.
fn index_of(numbers: &mut [u32], around: Option<Opened>, out: &mut [u8]) -> Result<u32, Refusal>
    requires { (n : Sheet) × SheetHeld members n numbers.old }
    ensures { (n : Sheet) → SheetHeld members n numbers.old → Answered (index_outcome (framed (around_of around) n) n) out.old (number_of result) out.new }
{
    let t = (numbers[0] - OFFSET) as usize;
    numbers[1 + 6 * t] = OFFSET;
    let mut opposite = [0usize; 3072];
    let mut sets = [0u64; 1024];
    let n = judged::judge(
        &numbers[..2 + 6 * t],
        around,
        false,
        &[0u8; 0],
        &mut opposite,
        &mut sets,
    )?;
    table_neighbours::write(&opposite[..3 * n], out)
}

// The index of the table of a sheet that is read in a mode, as little-endian u16 by triangle and then ab, bc, ca; the item is the number of bytes.
pub fn index(sheet: &[u8], mode: u32, out: &mut [u8]) -> Result<u32, Refusal>
    ensures { Answered (sheet_index mode sheet.now) out.old (number_of result) out.new }
{
    let mut numbers = [0u32; 16450];
    let (n, around) = sheet_modes::read(sheet, mode, &mut numbers)?;
    index_of(&mut numbers[..n], around, out)
}
