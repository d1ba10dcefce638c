// The boundary of edges, cut at the table's corners, counted at each side of the table; the pieces that are no sides must cancel. Edges that are sides are counted at
// once; where one isn't, all edges are counted by lines.
#![tactic(auto)]

ghost use Rattle.std.specs.Prelude.{◌≡◌, ◌||◌, List, ℕ, ◌+◌, ◌≤◌, ◌<◌, length, get_or};
ghost use Rattle.whole.specs.Tests.{Told};
ghost use Rattle.whole.specs.Sums.{All};
ghost use Rattle.plane.specs.Points.{Edge};
ghost use Rattle.whole_order.specs.Ascending.{Ascending};
ghost use Rattle.table.specs.Sides.{evenly};
ghost use Rattle.table_sides.specs.Numbered.{number_in};
ghost use Rattle.table_count.specs.Counting.{Looked, Edged, Tallied, Settled, Stray, pieces_of};
ghost use Rattle.table_tally.specs.Direct.{noted_at, added, Direct, Countable, Counted};

// One more, or one less, at the side with this number, counted from 1; nothing where the number is 0.
fn add(counts: &mut [u32], s: usize, up: bool)
    requires { (s ≤ length counts.old) × ((k : ℕ) → s ≡ k + 1 → (0 < get_or counts.old k 0) × (get_or counts.old k 0 + 1 < 4294967296)) }
    ensures { counts.new ≡ added counts.old s up }
{
    if s == 0 {
        return;
    }
    if up {
        counts[s - 1] += 1;
    } else {
        counts[s - 1] -= 1;
    }
}

// It is noted of the side with this number, counted from 1, that no corner is inside it.
fn noted(index: &[u64], s: usize) -> bool
    requires { s ≤ length index.now }
    ensures { result ≡ noted_at index.now s }
{
    if s == 0 {
        return false;
    }
    0 < index[s - 1] / 281_474_976_710_656
}

// It is noted of one of two sides.
fn either_noted(index: &[u64], s: usize, o: usize) -> bool
    requires { (s ≤ length index.now) × (o ≤ length index.now) }
    ensures { result ≡ (noted_at index.now s || noted_at index.now o) }
{
    noted(index, s) || noted(index, o)
}

// Counts the edge between two corners, given by their numbers among the corners, counted from 1, where it is a side with no corner inside or the reverse of one; false
// where it is none, or a number is 0.
fn count_edge(corners: &[u64], index: &[u64], a: usize, b: usize, counts: &mut [u32]) -> bool
    requires { Countable corners.now index.now counts.old × (a ≤ length corners.now) × (b ≤ length corners.now) }
    ensures { (sides l : List Edge) (u v : ℕ) → Looked sides corners.now index.now → Tallied sides l counts.old → a ≡ number_in u corners.now → b ≡ number_in v corners.now
        → Told result (Direct sides corners.now l u v counts.new) (Unit {0}) }
{
    if a == 0 {
        return false;
    }
    if b == 0 {
        return false;
    }
    if a == b {
        return false;
    }
    let s = table_count::side_at(corners, index, a - 1, b - 1);
    let o = table_count::side_at(corners, index, b - 1, a - 1);
    if !either_noted(index, s, o) {
        return false;
    }
    add(counts, s, true);
    add(counts, o, false);
    true
}

// The number, counted from 1, of u among the corners, where that of `last` is known.
fn rank_after(corners: &[u64], u: u64, last: u64, rank: usize) -> usize
    requires { Ascending corners.now × (rank ≡ number_in last corners.now) }
    ensures { result ≡ number_in u corners.now }
{
    if u == last {
        return rank;
    }
    table_count::rank(corners, u)
}

// Counts the edges, where each is a side with no corner inside or the reverse of one; false where one is none.
fn count_edges(corners: &[u64], index: &[u64], from: &[u64], to: &[u64], counts: &mut [u32]) -> bool
    requires { ((sides : List Edge) × Looked sides corners.now index.now × (length counts.old ≡ length sides)) × Edged from.now to.now × All (λ n. n ≡ evenly) counts.old }
    ensures { (sides : List Edge) → Looked sides corners.now index.now → length counts.old ≡ length sides
        → Told result (Counted sides (pieces_of corners.now from.now to.now) counts.new) (Unit {0}) }
{
    let mut last = 0;
    let mut b = table_count::rank(corners, last);
    for (&u, &v) in from.iter().zip(to) {
        let a = rank_after(corners, u, last, b);
        last = v;
        b = table_count::rank(corners, last);
        if !count_edge(corners, index, a, b, counts) {
            return false;
        }
    }
    true
}

// Counts the pieces of all edges; false where one is no side, nor the reverse of one, and doesn't cancel.
pub fn tally(corners: &[u64], index: &[u64], from: &[u64], to: &[u64], counts: &mut [u32]) -> bool
    requires { ((sides : List Edge) × Looked sides corners.now index.now × (length counts.old ≡ length sides)) × Edged from.now to.now }
    ensures { (sides : List Edge) → Looked sides corners.now index.now → length counts.old ≡ length sides → Told result
        (Tallied sides (pieces_of corners.now from.now to.now) counts.new × Settled sides (pieces_of corners.now from.now to.now) (pieces_of corners.now from.now to.now))
        (Stray sides (pieces_of corners.now from.now to.now)) }
{
    table_count::clear(counts);
    if count_edges(corners, index, from, to, counts) {
        return true;
    }
    table_trim::tally(corners, index, from, to, counts)
}
