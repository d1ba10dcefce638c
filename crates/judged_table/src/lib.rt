// The table of a sheet in numbers by the table rules, against the frame of its corners.
#![tactic(auto)]

ghost use Rattle.std.specs.Prelude.{◌≡◌, ℕ, ◌*◌, length};
ghost use Rattle.sheet_form.specs.Numbers.{Sheet};
ghost use Rattle.sheet.specs.Held.{SheetHeld};
ghost use Rattle.judged_table.specs.Checked.{Lists, TableChecked};

use lent::Refusal;

// The table rules in their order: 10 over all triangles, then 11, then 12 against the frame. The corners are laid down in work lists of the right lengths; a lent
// index may say where the side across a side is looked for first.
pub fn check(
    numbers: &[u32],
    lent: &[u8],
    keys: &mut [u64],
    ordered: &mut [u64],
    index: &mut [u64],
    opposite: &mut [usize],
) -> Result<usize, Refusal>
    requires { ((limit : ℕ) × (n : Sheet) × SheetHeld limit n numbers.now × (3 * length n.table ≡ length keys.old)) × Lists (length keys.old) keys.old ordered.old index.old opposite.old }
    ensures { (limit : ℕ) (n : Sheet) → SheetHeld limit n numbers.now → 3 * length n.table ≡ length keys.old
        → TableChecked n keys.new ordered.new index.new opposite.new result }
{
    let mut from = [0u64; 4];
    let mut to = [0u64; 4];
    sheet_edges::corners(numbers, keys);
    let frame = table_check::frame_of(keys);
    table_check::outline(frame, &mut from, &mut to);
    table_check::check_table(keys, &from, &to, lent, ordered, index, opposite)
}
