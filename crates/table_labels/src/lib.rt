// Labels of triangles compared with the counts at sides: at all of them, or at some.
#![tactic(auto)]

ghost use Rattle.std.specs.Prelude.{◌≡◌, ℕ, suc, ◌/◌, ◌≤◌, ◌<◌, length};
ghost use Rattle.whole.specs.Tests.{Told};
ghost use Rattle.whole.specs.Sums.{All, bit};
ghost use Rattle.table.specs.Sides.{across, SharesAt, Shares};
ghost use Rattle.table_labels.specs.Labels.{Sided};

// 1 where the triangle across, by the number of the reverse side, is labelled.
fn beyond(o: usize, labels: &[bool]) -> u32
    requires { (j : ℕ) → o ≡ suc j → j / 3 < length labels.now }
    ensures { (result ≡ across labels.now o) × (result ≤ 1) }
{
    if o == 0 {
        return 0;
    }
    u32::from(labels[(o - 1) / 3])
}

// The count at side k is that of the boundary of the labelled set.
fn agrees(opposite: &[usize], counts: &[u32], labels: &[bool], k: usize) -> bool
    requires { Sided opposite.now counts.now (length labels.now) × (k < length opposite.now) }
    ensures { Told result (SharesAt opposite.now counts.now labels.now k) (SharesAt opposite.now counts.now labels.now k → ⊥) }
{
    let own = table::EVEN + u32::from(labels[k / 3]);
    counts[k] + beyond(opposite[k], labels) == own
}

// The counts at all sides are those of the boundary of the labelled set.
pub fn agree(opposite: &[usize], counts: &[u32], labels: &[bool]) -> bool
    requires { Sided opposite.now counts.now (length labels.now) }
    ensures { Told result (Shares opposite.now counts.now labels.now) (Shares opposite.now counts.now labels.now → ⊥) }
{
    for k in 0..counts.len() {
        if !agrees(opposite, counts, labels, k) {
            return false;
        }
    }
    true
}

// The counts at these sides are those of the boundary of the labelled set.
pub fn agree_at(opposite: &[usize], counts: &[u32], labels: &[bool], sides: &[usize]) -> bool
    requires { Sided opposite.now counts.now (length labels.now) × All (λ k. k < length opposite.now) sides.now }
    ensures { Told result (All (SharesAt opposite.now counts.now labels.now) sides.now)
        (All (SharesAt opposite.now counts.now labels.now) sides.now → ⊥) }
{
    for k in sides {
        if !agrees(opposite, counts, labels, *k) {
            return false;
        }
    }
    true
}
