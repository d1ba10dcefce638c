// Labels that spread: from the sides that a polygon touches, across the sides that it doesn't, and the last comparison at the touched sides.
#![tactic(auto)]

ghost use Rattle.std.specs.Prelude.{◌≡◌, Bool, true, false, List, ℕ, ◌+◌, ◌*◌, ◌/◌, ◌≤◌, ◌<◌, length, get_or, take};
ghost use Rattle.whole.specs.Sums.{All};
ghost use Rattle.whole.specs.Tests.{Told};
ghost use Rattle.table.specs.Sides.{Shares};
ghost use Rattle.table_labels.specs.Labels.{Sided};
ghost use Rattle.table_spread.specs.Spreading.{touched_sides, Spreadable, Meeting, Taken, Grown, Entered, Seeded, Forced, Ends, Open, Crossed, Rounded, Spread};

// Lists the sides that are touched, those with a count other than none, by their numbers in order; answers how many.
pub fn touched(counts: &[u32], sides: &mut [usize]) -> usize
    requires { length sides.old ≡ length counts.now }
    ensures { (take result sides.new ≡ touched_sides counts.now) × (result ≤ length sides.new) }
{
    let mut n = 0;
    for (k, &count) in counts.iter().enumerate() {
        if count != table::EVEN {
            sides[n] = k;
            n += 1;
        }
    }
    n
}

// Triangle t is labelled and taken into the group, unless it is labelled.
fn meet(t: usize, labels: &mut [bool], group: &mut [usize], n: usize) -> usize
    requires { (t < length labels.old) × (get_or labels.old t false ≡ false → n < length group.old) }
    ensures { Taken t labels.old group.old n labels.new group.new result }
{
    if labels[t] {
        return n;
    }
    labels[t] = true;
    group[n] = t;
    n + 1
}

// The own triangle of side k is met if the side counts once.
fn enter(counts: &[u32], k: usize, labels: &mut [bool], group: &mut [usize], n: usize) -> usize
    requires { (length counts.now ≡ 3 * length labels.old) × Meeting labels.old group.old n × Seeded counts.now labels.old × (k < length counts.now) }
    ensures { Grown labels.old group.old n labels.new group.new result × Seeded counts.now labels.new × Entered counts.now labels.new k }
{
    if counts[k] != table::ONCE {
        return n;
    }
    meet(k / 3, labels, group, n)
}

// The own triangles of the touched sides that count once.
fn starts(counts: &[u32], touched: &[usize], labels: &mut [bool], group: &mut [usize]) -> usize
    requires { (length counts.now ≡ 3 * length labels.old) × Meeting labels.old group.old 0 × Seeded counts.now labels.old × All (λ k. k < length counts.now) touched.now }
    ensures { Grown labels.old group.old 0 labels.new group.new result × Seeded counts.now labels.new × All (Entered counts.now labels.new) touched.now }
{
    let mut n = 0;
    for &k in touched {
        n = enter(counts, k, labels, group, n);
    }
    n
}

// The triangle across side k is met if the side is untouched.
fn cross(
    opposite: &[usize],
    counts: &[u32],
    k: usize,
    labels: &mut [bool],
    group: &mut [usize],
    n: usize,
) -> usize
    requires { Sided opposite.now counts.now (length labels.old) × Meeting labels.old group.old n × Forced opposite.now counts.now labels.old
        × (k < length opposite.now) × (get_or labels.old (k / 3) false ≡ true) × (Ends opposite.now counts.now k → ⊥) }
    ensures { Grown labels.old group.old n labels.new group.new result × Forced opposite.now counts.now labels.new × Crossed opposite.now counts.now labels.new k }
{
    if counts[k] != table::EVEN {
        return n;
    }
    meet((opposite[k] - 1) / 3, labels, group, n)
}

// The triangles across the untouched sides of triangle t.
fn around(
    opposite: &[usize],
    counts: &[u32],
    t: usize,
    labels: &mut [bool],
    group: &mut [usize],
    n: usize,
) -> usize
    requires { Sided opposite.now counts.now (length labels.old) × Meeting labels.old group.old n × Forced opposite.now counts.now labels.old
        × (get_or labels.old t false ≡ true) × (Open opposite.now counts.now t → ⊥) }
    ensures { Grown labels.old group.old n labels.new group.new result × Forced opposite.now counts.now labels.new × Rounded opposite.now counts.now labels.new t }
{
    let k = 3 * t;
    let a = cross(opposite, counts, k, labels, group, n);
    let b = cross(opposite, counts, k + 1, labels, group, a);
    cross(opposite, counts, k + 2, labels, group, b)
}

// Side k is untouched and has no reverse.
fn ends(opposite: &[usize], counts: &[u32], k: usize) -> bool
    requires { (k < length opposite.now) × (k < length counts.now) }
    ensures { Told result (Ends opposite.now counts.now k) (Ends opposite.now counts.now k → ⊥) }
{
    opposite[k] == 0 && counts[k] == table::EVEN
}

// A side of triangle t is untouched and has no reverse.
fn open(opposite: &[usize], counts: &[u32], t: usize) -> bool
    requires { (3 * t + 2 < length opposite.now) × (length counts.now ≡ length opposite.now) }
    ensures { Told result (Open opposite.now counts.now t) (Open opposite.now counts.now t → ⊥) }
{
    let k = 3 * t;
    ends(opposite, counts, k) || ends(opposite, counts, k + 1) || ends(opposite, counts, k + 2)
}

// From each triangle in the group those across its untouched sides; false where such a side has no reverse.
fn spreads(
    opposite: &[usize],
    counts: &[u32],
    labels: &mut [bool],
    group: &mut [usize],
    first: usize,
) -> bool
    requires { Sided opposite.now counts.now (length labels.old) × Meeting labels.old group.old first × Forced opposite.now counts.now labels.old }
    ensures { (length labels.new ≡ length labels.old) × ((t : ℕ) → get_or labels.old t false ≡ true → get_or labels.new t false ≡ true)
        × Told result (Spread opposite.now counts.now labels.new) ((s : List Bool) → Shares opposite.now counts.now s → ⊥) }
{
    let mut n = first;
    let mut i: usize = 0;
    // A while: the group grows as it is gone through.
    while i < n {
        let t = group[i];
        if open(opposite, counts, t) {
            return false;
        }
        n = around(opposite, counts, t, labels, group, n);
        i += 1;
    }
    true
}

// Labels the set of triangles whose boundary the counts are; false where there is no such set.
pub fn spread(
    opposite: &[usize],
    counts: &[u32],
    touched: &[usize],
    labels: &mut [bool],
    group: &mut [usize],
) -> bool
    requires { Spreadable opposite.now counts.now (length labels.old) × (touched.now ≡ touched_sides counts.now) × (length group.old ≡ length labels.old) }
    ensures { (length labels.new ≡ length labels.old)
        × Told result (Shares opposite.now counts.now labels.new) ((s : List Bool) → length s ≡ length labels.old → Shares opposite.now counts.now s → ⊥) }
{
    labels.fill(false);
    let n = starts(counts, touched, labels, group);
    if !spreads(opposite, counts, labels, group, n) {
        return false;
    }
    table_labels::agree_at(opposite, counts, labels, touched)
}
