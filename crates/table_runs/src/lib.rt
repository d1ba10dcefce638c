// Counting by lines: the edges of a line are marked where they begin and end, and a running sum along the line is the net count of each pair of corners that
// follow one another there.
#![tactic(auto)]

ghost use Rattle.std.specs.Prelude.{◌≡◌, true, false, List, ◌+◌, ◌≤◌, ◌<◌, T, length, get_or};
ghost use Rattle.whole.specs.Tests.{Told};
ghost use Rattle.whole.specs.Sums.{All};
ghost use Rattle.table.specs.Sides.{evenly};
ghost use Rattle.plane.specs.Points.{Edge};
ghost use Rattle.plane.specs.Keys.{Key};
ghost use Rattle.table_lines.specs.Lines.{lies, begun_by, ended_by, Cornered, Begins, Ends, Spans};
ghost use Rattle.table_count.specs.Counting.{Looked, Stray, pieces_of, Tallied, Settled};
ghost use Rattle.table_runs.specs.Runs.{Open, Met, Ready, placed, Lined, ByLines, Onward};

// The count at the side with this number, counted from 1, is more less `less`; nothing where the number is 0.
fn put(counts: &mut [u32], s: usize, more: u32, less: u32)
    requires { (s ≤ length counts.old) × (more ≤ 4096) × (less ≤ 4096) }
    ensures { counts.new ≡ placed counts.old s more less }
{
    if s == 0 {
        return;
    }
    counts[s - 1] = table::EVEN + more - less;
}

// Counts the pair of corners that follow one another on the line of a and b, with the places last and k; false where it is no side, nor the reverse of one, and
// doesn't cancel.
fn meet(
    corners: &[u64],
    index: &[u64],
    from: &[u64],
    to: &[u64],
    a: u64,
    b: u64,
    k: usize,
    last: usize,
    more: u32,
    less: u32,
    counts: &mut [u32],
) -> bool
    requires { ((sides : List Edge) × Looked sides corners.now index.now × (length counts.old ≡ length sides)) × Cornered corners.now from.now to.now × (k < length corners.now) × (last ≤ k)
        × (more ≡ begun_by corners.now a b from.now to.now k) × (less ≡ ended_by corners.now a b from.now to.now k) }
    ensures { (sides : List Edge) → Looked sides corners.now index.now → Open sides (pieces_of corners.now from.now to.now) counts.old
        → (a ≡ b → ⊥) → T (lies a b (get_or corners.now k 0)) → Ready corners.now a b k (get_or corners.now last 0) more less → Told result
        (Met sides corners.now from.now to.now a b counts.old counts.new (get_or corners.now k 0))
        (Stray sides (pieces_of corners.now from.now to.now)) }
{
    if more == less {
        return true;
    }
    let s = table_count::side_at(corners, index, last, k);
    let o = table_count::side_at(corners, index, k, last);
    if s + o == 0 {
        return false;
    }
    put(counts, s, more, less);
    put(counts, o, less, more);
    true
}

// Nothing has begun that has not ended, nor does anything begin here that doesn't end here.
fn quiet(more: u32, less: u32, begin: u32, end: u32) -> bool
    ensures { result ≡ true → (more ≡ less) × (begin ≡ end) }
{
    more == less && begin == end
}

// Counts the pairs of corners that follow one another on the line of a and b, from what begins and what ends at each corner.
fn walk(
    corners: &[u64],
    index: &[u64],
    from: &[u64],
    to: &[u64],
    a: u64,
    b: u64,
    begins: &[u32],
    ends: &[u32],
    low: usize,
    stop: usize,
    counts: &mut [u32],
) -> bool
    requires { ((sides : List Edge) × Looked sides corners.now index.now × (length counts.old ≡ length sides)) × Cornered corners.now from.now to.now × Key a × Key b × (a ≡ b → ⊥)
        × Begins corners.now a b from.now to.now begins.now × Ends corners.now a b from.now to.now ends.now
        × (stop ≤ length corners.now) × Spans corners.now a b from.now to.now (length from.now) low stop }
    ensures { (sides : List Edge) → Looked sides corners.now index.now → Open sides (pieces_of corners.now from.now to.now) counts.old → Told result
        (Lined sides corners.now from.now to.now a b counts.old counts.new)
        (Stray sides (pieces_of corners.now from.now to.now)) }
{
    let mut more: u32 = 0;
    let mut less: u32 = 0;
    let mut last: usize = 0;
    for k in low..stop {
        if !quiet(more, less, begins[k], ends[k]) && table_lines::on_line(a, b, corners[k]) {
            if !meet(corners, index, from, to, a, b, k, last, more, less, counts) {
                return false;
            }
            last = k;
        }
        more += begins[k];
        less += ends[k];
    }
    true
}

// Counts the line of edge i, unless that is done. No corner is marked before and after.
fn edge_line(
    corners: &[u64],
    index: &[u64],
    from: &[u64],
    to: &[u64],
    i: usize,
    begins: &mut [u32],
    ends: &mut [u32],
    done: &mut [bool],
    counts: &mut [u32],
) -> bool
    requires { ((sides : List Edge) × Looked sides corners.now index.now × (length counts.old ≡ length sides)) × Cornered corners.now from.now to.now × (i < length from.now)
        × (length begins.old ≡ length corners.now) × (length ends.old ≡ length corners.now) × All (λ n. n ≡ 0) begins.old × All (λ n. n ≡ 0) ends.old
        × (length done.old ≡ length from.now) × ByLines from.now to.now i done.old }
    ensures { All (λ n. n ≡ 0) begins.new × All (λ n. n ≡ 0) ends.new × ByLines from.now to.now (i + 1) done.new
        × ((sides : List Edge) → Looked sides corners.now index.now → Open sides (pieces_of corners.now from.now to.now) counts.old → Told result
        (Onward sides corners.now from.now to.now counts.old counts.new done.old done.new)
        (Stray sides (pieces_of corners.now from.now to.now))) }
{
    if done[i] {
        return true;
    }
    let a = from[i];
    let b = to[i];
    let span = table_lines::mark(corners, from, to, i, a, b, begins, ends, done);
    let low = span.low;
    let stop = span.stop;
    let settled = walk(
        corners, index, from, to, a, b, begins, ends, low, stop, counts,
    );
    table_lines::wipe(begins, low, stop);
    table_lines::wipe(ends, low, stop);
    settled
}

// Counts all edges, each from corner to corner, by their lines; false where a pair is no side, nor the reverse of one, and doesn't cancel. At first no count
// is other than 0 and no edge is noted as done; no corner is marked before and after.
pub fn tally(
    corners: &[u64],
    index: &[u64],
    from: &[u64],
    to: &[u64],
    begins: &mut [u32],
    ends: &mut [u32],
    done: &mut [bool],
    counts: &mut [u32],
) -> bool
    requires { ((sides : List Edge) × Looked sides corners.now index.now × (length counts.old ≡ length sides)) × Cornered corners.now from.now to.now
        × (length begins.old ≡ length corners.now) × (length ends.old ≡ length corners.now) × All (λ n. n ≡ 0) begins.old × All (λ n. n ≡ 0) ends.old
        × (length done.old ≡ length from.now) × All (λ d. d ≡ false) done.old × All (λ n. n ≡ evenly) counts.old }
    ensures { All (λ n. n ≡ 0) begins.new × All (λ n. n ≡ 0) ends.new
        × ((sides : List Edge) → Looked sides corners.now index.now → length counts.old ≡ length sides → Told result
        (Tallied sides (pieces_of corners.now from.now to.now) counts.new × Settled sides (pieces_of corners.now from.now to.now) (pieces_of corners.now from.now to.now))
        (Stray sides (pieces_of corners.now from.now to.now))) }
{
    for i in 0..from.len() {
        if !edge_line(corners, index, from, to, i, begins, ends, done, counts) {
            return false;
        }
    }
    true
}
