// Counting by lines with edges whose ends may be off the table: the loose pieces before the first corner and behind the last are taken off and must cancel.
#![tactic(auto)]

ghost use Rattle.std.specs.Prelude.{◌≡◌, MatchOption, cond, false, ◌⊎◌, List, ◌++◌, ℕ, ◌+◌, ◌-◌, ◌*◌, ◌≤◌, ◌<◌, eqb, ltb, length, get_or, take};
ghost use Rattle.whole.specs.Tests.{Told};
ghost use Rattle.plane.specs.Points.{Edge};
ghost use Rattle.table.specs.Sides.{evenly};
ghost use Rattle.whole.specs.Sums.{All};
ghost use Rattle.plane.specs.Keys.{Key};
ghost use Rattle.whole_order.specs.Ascending.{Ascending, IsIn};
ghost use Rattle.table_count.specs.Counting.{Looked, NextStop, Edged, Tallied, Settled, Stray, pieces_of};
ghost use Rattle.table_trim.specs.Trimming.{LastStop, Headed, Tailed, Left, unless, Astray, Reduced};
ghost use Rattle.table_trim.specs.declared.Rest.{Rest};

// The place of the last corner before `at` that is strictly between u and v.
fn last_stop(corners: &[u64], at: usize, u: u64, v: u64) -> Option<usize>
    requires { Ascending corners.now × All Key corners.now × Key u × Key v × (u < v) × (at ≤ length corners.now) }
    ensures { MatchOption result (LastStop corners.now at u v 0) (λ i. LastStop corners.now at u v (i + 1)) }
{
    for i in (0..at).rev() {
        let c = corners[i];
        if c <= u {
            return None;
        }
        if plane_exact::on_way(c, u, v) {
            return Some(i);
        }
    }
    None
}

// Where what is left of the edge from u up to v begins, once a loose piece before its first corner is taken off.
fn head(corners: &[u64], u: u64, v: u64) -> u64
    requires { Ascending corners.now × All Key corners.now × Key u × Key v × (u ≤ v) }
    ensures { Headed corners.now u v result }
{
    if u == v {
        return u;
    }
    if table_count::rank(corners, u) != 0 {
        return u;
    }
    let at = whole_order::place(corners, u);
    let r = table_count::next_stop(corners, at, u, v);
    corners.get(r).copied().unwrap_or(v)
}

// Where what is left of the edge from the corner u up to v ends, once a loose piece behind its last corner is taken off.
fn tail(corners: &[u64], u: u64, v: u64) -> u64
    requires { Ascending corners.now × All Key corners.now × Key u × Key v × (u ≤ v) × (IsIn u corners.now ⊎ (u ≡ v)) }
    ensures { Tailed corners.now u v result }
{
    if u == v {
        return v;
    }
    if table_count::rank(corners, v) != 0 {
        return v;
    }
    let at = whole_order::place(corners, v);
    match last_stop(corners, at, u, v) {
        Some(i) => corners[i],
        None => u,
    }
}

// What is left of an edge: where it begins and where it ends.
#[derive(Clone, Copy)]
pub struct Rest {
    pub from: u64,
    pub to: u64,
}

// What is left of the edge from p to q between its first corner and its last one.
fn left(corners: &[u64], p: u64, q: u64) -> Rest
    requires { Ascending corners.now × All Key corners.now × Key p × Key q }
    ensures { Left corners.now p q result.from result.to }
{
    let v = p.max(q);
    let x = head(corners, p.min(q), v);
    let y = tail(corners, x, v);
    let (from, to) = if p < q { (x, y) } else { (y, x) };
    Rest { from, to }
}

// Puts the edge from s to t behind the first m edges, unless it has no length; how many there are then.
fn put(fs: &mut [u64], ts: &mut [u64], m: usize, s: u64, t: u64) -> usize
    requires { (m < length fs.old) × (m < length ts.old) }
    ensures { (result ≤ m + 1) × (take result fs.new ≡ take m fs.old ++ unless (eqb s t) s) × (take result ts.new ≡ take m ts.old ++ unless (eqb s t) t) }
{
    if s == t {
        return m;
    }
    fs[m] = s;
    ts[m] = t;
    m + 1
}

// Trims all edges; how many are left, None where a loose piece doesn't cancel.
fn trim_all(
    corners: &[u64],
    from: &[u64],
    to: &[u64],
    fs: &mut [u64],
    ts: &mut [u64],
    us: &mut [u64],
    vs: &mut [u64],
) -> Option<usize>
    requires { Ascending corners.now × All Key corners.now × Edged from.now to.now × (length from.now ≤ length fs.old) × (length from.now ≤ length ts.old)
        × (2 * length from.now ≤ length us.old) × (2 * length from.now ≤ length vs.old) × (length corners.now ≤ 3072) }
    ensures { MatchOption result (Astray corners.now from.now to.now)
        (λ n. (n ≤ length from.now) × Reduced corners.now from.now to.now (take n fs.new) (take n ts.new)) }
{
    let mut m = 0;
    let mut n = 0;
    for (&p, &q) in from.iter().zip(to) {
        let rest = left(corners, p, q);
        n = table_loose::come(us, vs, n, p, rest.from);
        n = table_loose::come(us, vs, n, rest.to, q);
        m = put(fs, ts, m, rest.from, rest.to);
    }
    if n == 0 { Some(m) } else { None }
}

// Counts the pieces of all edges in work lists that are lent; false where one is no side, nor the reverse of one, and doesn't cancel.
fn tally_in(
    corners: &[u64],
    index: &[u64],
    from: &[u64],
    to: &[u64],
    fs: &mut [u64],
    ts: &mut [u64],
    us: &mut [u64],
    vs: &mut [u64],
    begins: &mut [u32],
    ends: &mut [u32],
    done: &mut [bool],
    counts: &mut [u32],
) -> bool
    requires { ((sides : List Edge) × Looked sides corners.now index.now × (length counts.old ≡ length sides)) × Edged from.now to.now × (length from.now ≤ length fs.old) × (length from.now ≤ length ts.old)
        × (2 * length from.now ≤ length us.old) × (2 * length from.now ≤ length vs.old) × (length begins.old ≡ length corners.now) × (length ends.old ≡ length corners.now)
        × All (λ n. n ≡ 0) begins.old × All (λ n. n ≡ 0) ends.old × (length from.now ≤ length done.old) × All (λ d. d ≡ false) done.old }
    ensures { (sides : List Edge) → Looked sides corners.now index.now → length counts.old ≡ length sides → Told result
        (Tallied sides (pieces_of corners.now from.now to.now) counts.new × Settled sides (pieces_of corners.now from.now to.now) (pieces_of corners.now from.now to.now))
        (Stray sides (pieces_of corners.now from.now to.now)) }
{
    table_count::clear(counts);
    let Some(m) = trim_all(corners, from, to, fs, ts, us, vs) else {
        return false;
    };
    table_runs::tally(
        corners,
        index,
        &fs[..m],
        &ts[..m],
        begins,
        ends,
        &mut done[..m],
        counts,
    )
}

// Counts the pieces of all edges in work lists of these lengths; false where one is no side, nor the reverse of one, and doesn't cancel.
fn tally_by<const EDGES: usize, const PIECES: usize, const CORNERS: usize>(
    corners: &[u64],
    index: &[u64],
    from: &[u64],
    to: &[u64],
    counts: &mut [u32],
) -> bool
    requires { ((sides : List Edge) × Looked sides corners.now index.now × (length counts.old ≡ length sides)) × Edged from.now to.now
        × (length from.now ≤ EDGES) × (2 * EDGES ≤ PIECES) × (PIECES ≤ 8192) × (length corners.now ≤ CORNERS) × (CORNERS ≤ 3072) }
    ensures { (sides : List Edge) → Looked sides corners.now index.now → length counts.old ≡ length sides → Told result
        (Tallied sides (pieces_of corners.now from.now to.now) counts.new × Settled sides (pieces_of corners.now from.now to.now) (pieces_of corners.now from.now to.now))
        (Stray sides (pieces_of corners.now from.now to.now)) }
{
    let n = corners.len();
    tally_in(
        corners,
        index,
        from,
        to,
        &mut [0; EDGES],
        &mut [0; EDGES],
        &mut [0; PIECES],
        &mut [0; PIECES],
        &mut [0; CORNERS][..n],
        &mut [0; CORNERS][..n],
        &mut [false; EDGES],
        counts,
    )
}

// Counts the pieces of all edges; false where one is no side, nor the reverse of one, and doesn't cancel.
pub fn tally(corners: &[u64], index: &[u64], from: &[u64], to: &[u64], counts: &mut [u32]) -> bool
    requires { ((sides : List Edge) × Looked sides corners.now index.now × (length counts.old ≡ length sides)) × Edged from.now to.now }
    ensures { (sides : List Edge) → Looked sides corners.now index.now → length counts.old ≡ length sides → Told result
        (Tallied sides (pieces_of corners.now from.now to.now) counts.new × Settled sides (pieces_of corners.now from.now to.now) (pieces_of corners.now from.now to.now))
        (Stray sides (pieces_of corners.now from.now to.now)) }
{
    if from.len() <= 64 && corners.len() <= 192 {
        return tally_by::<64, 128, 192>(corners, index, from, to, counts);
    }
    tally_by::<4096, 8192, 3072>(corners, index, from, to, counts)
}
