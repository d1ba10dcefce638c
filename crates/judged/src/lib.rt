// From bytes to a judged sheet: reading in a mode, the table rules, the envelope, an index that is lent, and the judging of the polygons in number order.
#![tactic(auto)]

ghost use Rattle.std.specs.Prelude.{◌≡◌, ◌*◌, ◌/◌, ◌≤◌, min, length};
ghost use Rattle.std.proofs.Math.Option.{none};
ghost use Rattle.table_neighbours.specs.Neighbours.{lent_if};
ghost use Rattle.sheet_form.specs.Numbers.{Sheet, members};
ghost use Rattle.sheet.specs.Held.{SheetHeld};
ghost use Rattle.judged_table.specs.Checked.{Lists};
ghost use Rattle.sheet_modes.specs.Modes.{framed};
ghost use Rattle.sheet_modes.specs.Held.{around_of};
ghost use Rattle.judged.specs.Judging.{OwnedOf};
ghost use Rattle.judged.specs.Held.{Rooms, JudgedAs};

use lent::{Reason, Refusal};
use plane::OFFSET;
use sheet_blob::Opened;

// The sheet in numbers with work lists of the right lengths: the table rules, the envelope around it, 52 where that isn't the frame, an index that is lent,
// 53 where it isn't the table's own, and then the polygons.
fn judge_in(
    numbers: &[u32],
    around: Option<Opened>,
    indexed: bool,
    lent: &[u8],
    keys: &mut [u64],
    ordered: &mut [u64],
    index: &mut [u64],
    opposite: &mut [usize],
    sets: &mut [u64],
) -> Result<usize, Refusal>
    requires { ((n : Sheet) × SheetHeld members n numbers.now × (length n.table ≡ length sets.old)) × Lists (3 * length sets.old) keys.old ordered.old index.old opposite.old }
    ensures { (n : Sheet) → SheetHeld members n numbers.now → length n.table ≡ length sets.old → OwnedOf (lent_if indexed lent.now) (framed (around_of around) n) n result opposite.new sets.new }
{
    let k = judged_table::check(numbers, lent, keys, ordered, index, opposite)?;
    if !sheet_modes::framed(numbers, around) {
        return Err(Refusal {
            reason: Reason::OtherFrame,
            item: 0,
        });
    }
    if !table_neighbours::agrees(indexed, opposite, lent) {
        return Err(Refusal {
            reason: Reason::OtherIndex,
            item: 0,
        });
    }
    judged_sets::judge_all(numbers, &ordered[..k], index, opposite, sets)
}

// The sheet in numbers with at most so many sides, judged in work lists of that length.
fn judge_within<const SIDES: usize>(
    numbers: &[u32],
    around: Option<Opened>,
    indexed: bool,
    lent: &[u8],
    opposite: &mut [usize],
    sets: &mut [u64],
) -> Result<usize, Refusal>
    requires { ((n : Sheet) × SheetHeld members n numbers.now × (length n.table ≡ length sets.old)) × (length opposite.old ≡ 3 * length sets.old) × (3 * length sets.old ≤ SIDES) × (SIDES ≤ 3072) }
    ensures { (n : Sheet) → SheetHeld members n numbers.now → length n.table ≡ length sets.old → OwnedOf (lent_if indexed lent.now) (framed (around_of around) n) n result opposite.new sets.new }
{
    let m = opposite.len();
    let mut keys = [0u64; SIDES];
    let mut ordered = [0u64; SIDES];
    let mut index = [0u64; SIDES];
    judge_in(
        numbers,
        around,
        indexed,
        lent,
        &mut keys[..m],
        &mut ordered[..m],
        &mut index[..m],
        opposite,
        sets,
    )
}

// The sheet in numbers over lists as long as its table asks, judged in short work lists where these do.
fn judge_over(
    numbers: &[u32],
    around: Option<Opened>,
    indexed: bool,
    lent: &[u8],
    opposite: &mut [usize],
    sets: &mut [u64],
) -> Result<usize, Refusal>
    requires { ((n : Sheet) × SheetHeld members n numbers.now × (length n.table ≡ length sets.old)) × (length opposite.old ≡ 3 * length sets.old) }
    ensures { (n : Sheet) → SheetHeld members n numbers.now → length n.table ≡ length sets.old → OwnedOf (lent_if indexed lent.now) (framed (around_of around) n) n result opposite.new sets.new }
{
    if sets.len() <= 64 {
        judge_within::<192>(numbers, around, indexed, lent, opposite, sets)
    } else {
        judge_within::<3072>(numbers, around, indexed, lent, opposite, sets)
    }
}

// The sheet in numbers: its owner sets, laid down at the front of the lent ones, and beside them the number of the reverse of each side; or the
// refusal.
pub fn judge(
    numbers: &[u32],
    around: Option<Opened>,
    indexed: bool,
    lent: &[u8],
    opposite: &mut [usize],
    sets: &mut [u64],
) -> Result<usize, Refusal>
    requires { ((n : Sheet) × SheetHeld members n numbers.now) × (min 3072 (length numbers.now / 2) ≤ length opposite.old) × (min 1024 (length numbers.now / 6) ≤ length sets.old) }
    ensures { (n : Sheet) → SheetHeld members n numbers.now → OwnedOf (lent_if indexed lent.now) (framed (around_of around) n) n result opposite.new sets.new }
{
    let t = (numbers[0] - OFFSET) as usize;
    let m = 3 * t;
    judge_over(
        numbers,
        around,
        indexed,
        lent,
        &mut opposite[..m],
        &mut sets[..t],
    )
}

// Reads the sheet in a mode, compares an index that is lent with its table's own, and judges its polygons. On success the sheet in numbers, the number of the reverse
// of each side of its table, and the owner sets stand at the front of the lent lists.
pub fn judged_with(
    sheet: &[u8],
    mode: u32,
    indexed: bool,
    lent: &[u8],
    numbers: &mut [u32],
    opposite: &mut [usize],
    sets: &mut [u64],
) -> Result<usize, Refusal>
    requires { Rooms sheet.now numbers.old opposite.old sets.old }
    ensures { JudgedAs (lent_if indexed lent.now) mode sheet.now result numbers.new opposite.new sets.new }
{
    let (n, around) = sheet_modes::read(sheet, mode, numbers)?;
    judge(&numbers[..n], around, indexed, lent, opposite, sets)
}

// The same with no index.
pub fn judged(
    sheet: &[u8],
    mode: u32,
    numbers: &mut [u32],
    opposite: &mut [usize],
    sets: &mut [u64],
) -> Result<usize, Refusal>
    requires { Rooms sheet.now numbers.old opposite.old sets.old }
    ensures { JudgedAs none mode sheet.now result numbers.new opposite.new sets.new }
{
    judged_with(sheet, mode, false, &[0u8; 0], numbers, opposite, sets)
}
