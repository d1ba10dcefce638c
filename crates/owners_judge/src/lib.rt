// Who owns a triangle: the judging of one polygon, by labels that spread from the sides that it touches and a last comparison of the two boundaries.
#![tactic(auto)]

ghost use Rattle.std.specs.Prelude.{◌≡◌, List, ℕ};
ghost use Rattle.plane.specs.Members.{Member, member_edges};
ghost use Rattle.plane.specs.Keys.{pairs};
ghost use Rattle.table.specs.Sides.{triangles_of};
ghost use Rattle.table_count.specs.Counting.{Edged};
ghost use Rattle.owners.specs.Judging.{judge};
ghost use Rattle.owners_judge.specs.Preparing.{Prepared, WorkLists};
ghost use Rattle.owners_judge.specs.Judged.{judged_of};

// Why a polygon has no area of ownership: no set carries it, or it has no ground.
#[derive(Clone, Copy, Debug, PartialEq, Eq)]
pub enum Unowned {
    NotCarried,
    NoGround,
}

// Judges the polygon with these edges, from the corners of one list to those of the other. The labels of a carried one are its set.
pub fn judge(
    ordered: &[u64],
    index: &[u64],
    opposite: &[usize],
    from: &[u64],
    to: &[u64],
    counts: &mut [u32],
    touched: &mut [usize],
    labels: &mut [bool],
    group: &mut [usize],
) -> Result<(), Unowned>
    requires { ((keys : List ℕ) × Prepared keys ordered.now index.now opposite.now × WorkLists keys counts.old touched.old labels.old group.old) × Edged from.now to.now }
    ensures { (keys : List ℕ) (m : Member) → Prepared keys ordered.now index.now opposite.now → WorkLists keys counts.old touched.old labels.old group.old
        → pairs from.now to.now ≡ member_edges m → judged_of result labels.new ≡ judge (triangles_of keys) m }
{
    if !table_tally::tally(ordered, index, from, to, counts) {
        return Err(Unowned::NotCarried);
    }
    let n = table_spread::touched(counts, touched);
    if n == 0 {
        return Err(Unowned::NoGround);
    }
    if !table_spread::spread(opposite, counts, &touched[..n], labels, group) {
        return Err(Unowned::NotCarried);
    }
    Ok(())
}
