// Edges by the straight line they lie on: where the edges of a line begin and end, among the table's corners.
#![tactic(auto)]

ghost use Rattle.std.specs.Prelude.{◌≡◌, ◌⊎◌, true, false, cond, ℕ, ◌+◌, ◌≤◌, ◌<◌, T, length, get_or, set, take};
ghost use Rattle.table_lines.specs.declared.Span.{Span};
ghost use Rattle.whole.specs.Sums.{All};
ghost use Rattle.plane.specs.Keys.{Key};
ghost use Rattle.whole_order.specs.Ascending.{Ascending, IsIn, place_of};
ghost use Rattle.table_lines.specs.Lines.{lies, lie, Cornered, Begins, Ends, DoneBy, Unmet, Spans, Wider};

// The corner numbered c lies on the straight line of those numbered a and b.
pub fn on_line(a: u64, b: u64, c: u64) -> bool
    requires { Key a × Key b × Key c }
    ensures { result ≡ lies a b c }
{
    plane_exact::double_area(
        plane_exact::corner_at(a),
        plane_exact::corner_at(c),
        plane_exact::corner_at(b),
    ) == 0
}

// Both ends of an edge lie on it.
fn both_on(a: u64, b: u64, p: u64, q: u64) -> bool
    requires { Key a × Key b × Key p × Key q }
    ensures { result ≡ lie a b p q }
{
    on_line(a, b, p) && on_line(a, b, q)
}

// One more at the corner u; the corner's place.
fn note(corners: &[u64], u: u64, marks: &mut [u32]) -> usize
    requires { Ascending corners.now × IsIn u corners.now × (length marks.old ≡ length corners.now) × (get_or marks.old (place_of u corners.now) 0 + 1 < 4294967296) }
    ensures { (result ≡ place_of u corners.now)
        × (marks.new ≡ set marks.old (place_of u corners.now) (get_or marks.old (place_of u corners.now) 0 + 1)) }
{
    let at = whole_order::place(corners, u);
    marks[at] += 1;
    at
}

// Places from low on and before stop.
#[derive(Clone, Copy)]
pub struct Span {
    pub low: usize,
    pub stop: usize,
}

// A span with two places more.
fn widened(span: Span, x: usize, y: usize) -> Span
    requires { (x < 3072) × (y < 3072) }
    ensures { Wider span.low span.stop x y result.low result.stop }
{
    Span {
        low: span.low.min(x).min(y),
        stop: span.stop.max(x + 1).max(y + 1),
    }
}

// Marks where edge j begins and ends, if it is on the line of a and b and not done, and notes it as done then. The span of the marked corners.
fn mark_edge(
    corners: &[u64],
    from: &[u64],
    to: &[u64],
    a: u64,
    b: u64,
    j: usize,
    begins: &mut [u32],
    ends: &mut [u32],
    done: &mut [bool],
    span: Span,
) -> Span
    requires { Cornered corners.now from.now to.now × Key a × Key b × (j < length from.now) × (length done.old ≡ length from.now)
        × (get_or done.old j false ≡ true → T (lie a b (get_or from.now j 0) (get_or to.now j 0)) → ⊥)
        × Begins corners.now a b (take j from.now) (take j to.now) begins.old × Ends corners.now a b (take j from.now) (take j to.now) ends.old
        × (span.stop ≤ length corners.now) × Spans corners.now a b from.now to.now j span.low span.stop }
    ensures { Begins corners.now a b (take (j + 1) from.now) (take (j + 1) to.now) begins.new
        × Ends corners.now a b (take (j + 1) from.now) (take (j + 1) to.now) ends.new
        × (done.new ≡ cond (lie a b (get_or from.now j 0) (get_or to.now j 0)) (set done.old j true) done.old)
        × (result.stop ≤ length corners.now) × Spans corners.now a b from.now to.now (j + 1) result.low result.stop }
{
    if done[j] {
        return span;
    }
    if !both_on(a, b, from[j], to[j]) {
        return span;
    }
    let x = note(corners, from[j], begins);
    let y = note(corners, to[j], ends);
    done[j] = true;
    widened(span, x, y)
}

// Marks where the edges of the line of a and b begin and where they end, and notes these edges as done. None of them is done yet, nor one of the first i
// edges; at first no corner is marked.
pub fn mark(
    corners: &[u64],
    from: &[u64],
    to: &[u64],
    i: usize,
    a: u64,
    b: u64,
    begins: &mut [u32],
    ends: &mut [u32],
    done: &mut [bool],
) -> Span
    requires { Cornered corners.now from.now to.now × Key a × Key b × (i ≤ length from.now) × Unmet a b from.now to.now i done.old × (length done.old ≡ length from.now)
        × (length begins.old ≡ length corners.now) × (length ends.old ≡ length corners.now) × All (λ n. n ≡ 0) begins.old × All (λ n. n ≡ 0) ends.old }
    ensures { (result.stop ≤ length corners.now) × Spans corners.now a b from.now to.now (length from.now) result.low result.stop
        × Begins corners.now a b from.now to.now begins.new
        × Ends corners.now a b from.now to.now ends.new
        × DoneBy a b from.now to.now (length from.now) done.old done.new }
{
    let mut span = Span {
        low: corners.len(),
        stop: 0,
    };
    for j in i..from.len() {
        span = mark_edge(corners, from, to, a, b, j, begins, ends, done, span);
    }
    span
}

// Sets the marks within a span back to 0, where those outside are 0.
pub fn wipe(marks: &mut [u32], low: usize, stop: usize)
    requires { (stop ≤ length marks.old) × ((k : ℕ) → k < length marks.old → (k < low) ⊎ (stop ≤ k) → get_or marks.old k 0 ≡ 0) }
    ensures { (length marks.new ≡ length marks.old) × All (λ n. n ≡ 0) marks.new }
{
    if low < stop {
        marks[low..stop].fill(0);
    }
}
