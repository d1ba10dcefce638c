// The polygons of a sheet in numbers, judged in number order, and the owners of each triangle as one 64-bit set.
#![tactic(auto)]

ghost use Rattle.std.specs.Prelude.{◌≡◌, List, ℕ, ◌+◌, ◌*◌, ◌/◌, ◌≤◌, ◌<◌, ℤ, min, length, replicate};
ghost use Rattle.whole.specs.Sums.{All};
ghost use Rattle.plane.specs.Members.{Member};
ghost use Rattle.plane.specs.Keys.{Held};
ghost use Rattle.table.specs.Table.{RuleA};
ghost use Rattle.table.specs.Sides.{triangles_of};
ghost use Rattle.sheet_form.specs.Numbers.{Sheet, members};
ghost use Rattle.sheet.specs.Held.{SheetHeld};
ghost use Rattle.table_count.specs.Indexed.{Indexed};
ghost use Rattle.owners_judge.specs.Preparing.{Prepared, WorkLists};
ghost use Rattle.judged_sets.specs.Owning.{PolygonAt, TurnOf, PolygonsAt, EdgeRoom, held_sets, owned_as, OneEach};

use lent::{Reason, Refusal};
use owners_judge::Unowned;
use plane::OFFSET;

// Judges the polygon of a number at a place, its edges laid down in two lists. Where it is carried, by the labelled set, the answer is the place behind it.
fn judge_at(
    numbers: &[u32],
    at: usize,
    item: u32,
    ordered: &[u64],
    index: &[u64],
    opposite: &[usize],
    from: &mut [u64],
    to: &mut [u64],
    counts: &mut [u32],
    touched: &mut [usize],
    labels: &mut [bool],
    group: &mut [usize],
) -> Result<usize, Refusal>
    requires { ((keys : List ℕ) × Prepared keys ordered.now index.now opposite.now × WorkLists keys counts.old touched.old labels.old group.old)
        × All Held numbers.now × ((m : Member) × (rest : List ℤ) × PolygonAt numbers.now at m rest) × EdgeRoom numbers.now from.old × EdgeRoom numbers.now to.old }
    ensures { (keys : List ℕ) (m : Member) (rest : List ℤ) → Prepared keys ordered.now index.now opposite.now
        → WorkLists keys counts.old touched.old labels.old group.old → PolygonAt numbers.now at m rest → TurnOf (triangles_of keys) numbers.now item m rest result labels.new }
{
    let laid = sheet_edges::polygon(numbers, at, from, to);
    let n = laid.fill;
    match owners_judge::judge(
        ordered,
        index,
        opposite,
        &from[..n],
        &to[..n],
        counts,
        touched,
        labels,
        group,
    ) {
        Ok(()) => Ok(laid.at),
        Err(Unowned::NotCarried) => Err(Refusal {
            reason: Reason::NotCarried,
            item,
        }),
        Err(Unowned::NoGround) => Err(Refusal {
            reason: Reason::NoGround,
            item,
        }),
    }
}

// Judges the polygons in number order, the edges of each laid down in two lists: the number of owner sets, or the refusal of the first polygon that is refused.
fn polygons(
    numbers: &[u32],
    first: usize,
    ordered: &[u64],
    index: &[u64],
    opposite: &[usize],
    from: &mut [u64],
    to: &mut [u64],
    counts: &mut [u32],
    touched: &mut [usize],
    labels: &mut [bool],
    group: &mut [usize],
    sets: &mut [u64],
) -> Result<usize, Refusal>
    requires { ((keys : List ℕ) × Prepared keys ordered.now index.now opposite.now × WorkLists keys counts.old touched.old labels.old group.old)
        × All Held numbers.now × ((ms : List Member) × (rest : List ℤ) × PolygonsAt numbers.now first ms rest) × (length sets.old ≡ length labels.old) × (sets.old ≡ replicate (length sets.old) 0)
        × EdgeRoom numbers.now from.old × EdgeRoom numbers.now to.old }
    ensures { OneEach result (length sets.old) × ((keys : List ℕ) (ms : List Member) (rest : List ℤ) → Prepared keys ordered.now index.now opposite.now
        → WorkLists keys counts.old touched.old labels.old group.old → PolygonsAt numbers.now first ms rest → owned_as result sets.new ≡ held_sets (triangles_of keys) ms) }
{
    let mut at = first + 1;
    for k in 0..numbers[first] - OFFSET {
        at = judge_at(
            numbers,
            at,
            k + 1,
            ordered,
            index,
            opposite,
            from,
            to,
            counts,
            touched,
            labels,
            group,
        )?;
        owners_marks::mark(labels, k, sets);
    }
    Ok(sets.len())
}

// The polygons of a table that passes, judged in work lists of the right lengths.
fn judge_in(
    numbers: &[u32],
    ordered: &[u64],
    index: &[u64],
    opposite: &[usize],
    from: &mut [u64],
    to: &mut [u64],
    counts: &mut [u32],
    touched: &mut [usize],
    labels: &mut [bool],
    group: &mut [usize],
    sets: &mut [u64],
) -> Result<usize, Refusal>
    requires { ((keys : List ℕ) × Prepared keys ordered.now index.now opposite.now × WorkLists keys counts.old touched.old labels.old group.old × (length sets.old ≡ length (triangles_of keys)))
        × ((n : Sheet) × SheetHeld members n numbers.now × (length n.table ≡ length sets.old)) × EdgeRoom numbers.now from.old × EdgeRoom numbers.now to.old }
    ensures { OneEach result (length sets.old) × ((keys : List ℕ) (n : Sheet) → Prepared keys ordered.now index.now opposite.now → SheetHeld members n numbers.now → triangles_of keys ≡ n.table
        → WorkLists keys counts.old touched.old labels.old group.old → length sets.old ≡ length (triangles_of keys)
        → owned_as result sets.new ≡ held_sets n.table n.polygons) }
{
    let t = sets.len();
    sets.fill(0);
    polygons(
        numbers,
        1 + 6 * t,
        ordered,
        index,
        opposite,
        from,
        to,
        counts,
        touched,
        labels,
        group,
        sets,
    )
}

// The polygons of a table of at most so many triangles that passes, judged in work lists for so many, for their sides, and for so many edges of a polygon.
fn judge_within<const TRIANGLES: usize, const SIDES: usize, const EDGES: usize>(
    numbers: &[u32],
    ordered: &[u64],
    index: &[u64],
    opposite: &[usize],
    sets: &mut [u64],
) -> Result<usize, Refusal>
    requires { ((keys : List ℕ) × Indexed keys ordered.now index.now opposite.now × RuleA (triangles_of keys) × (length sets.old ≡ length (triangles_of keys)) × (length (triangles_of keys) ≤ TRIANGLES))
        × ((n : Sheet) × SheetHeld members n numbers.now × (length n.table ≡ length sets.old))
        × (SIDES ≡ 3 * TRIANGLES) × (TRIANGLES ≤ 1024) × (min 4096 (length numbers.now / 2) ≤ EDGES) × (EDGES ≤ 4096) }
    ensures { OneEach result (length sets.old) × ((keys : List ℕ) (n : Sheet) → Indexed keys ordered.now index.now opposite.now → RuleA (triangles_of keys) → SheetHeld members n numbers.now → triangles_of keys ≡ n.table
        → length sets.old ≡ length (triangles_of keys) → owned_as result sets.new ≡ held_sets n.table n.polygons) }
{
    let t = sets.len();
    let mut from = [0u64; EDGES];
    let mut to = [0u64; EDGES];
    let mut counts = [0u32; SIDES];
    let mut touched = [0usize; SIDES];
    let mut labels = [false; TRIANGLES];
    let mut group = [0usize; TRIANGLES];
    judge_in(
        numbers,
        ordered,
        index,
        opposite,
        &mut from,
        &mut to,
        &mut counts[..3 * t],
        &mut touched[..3 * t],
        &mut labels[..t],
        &mut group[..t],
        sets,
    )
}

// The polygons of a table that passes: the number of owner sets, or the refusal of the first polygon that is refused.
pub fn judge_all(
    numbers: &[u32],
    ordered: &[u64],
    index: &[u64],
    opposite: &[usize],
    sets: &mut [u64],
) -> Result<usize, Refusal>
    requires { ((keys : List ℕ) × Indexed keys ordered.now index.now opposite.now × RuleA (triangles_of keys) × (length sets.old ≡ length (triangles_of keys)) × (length (triangles_of keys) ≤ 1024))
        × ((n : Sheet) × SheetHeld members n numbers.now × (length n.table ≡ length sets.old)) }
    ensures { OneEach result (length sets.old) × ((keys : List ℕ) (n : Sheet) → Indexed keys ordered.now index.now opposite.now → RuleA (triangles_of keys) → SheetHeld members n numbers.now → triangles_of keys ≡ n.table
        → length sets.old ≡ length (triangles_of keys) → owned_as result sets.new ≡ held_sets n.table n.polygons) }
{
    if sets.len() <= 64 && numbers.len() <= 1024 {
        judge_within::<64, 192, 512>(numbers, ordered, index, opposite, sets)
    } else {
        judge_within::<1024, 3072, 4096>(numbers, ordered, index, opposite, sets)
    }
}
