// The frame of a table, and the table rules in their order: 10 over all triangles, then 11, then 12. Where they pass, corners and sides can be looked up.
#![tactic(auto)]

ghost use Rattle.std.specs.Prelude.{◌≡◌, true, List, [], ℕ, ◌*◌, ◌≤◌, ◌<◌, length, get_or};
ghost use Rattle.whole.specs.Sums.{All};
ghost use Rattle.plane.specs.declared.Corner.{Corner};
ghost use Rattle.plane.specs.Points.{Point};
ghost use Rattle.plane.specs.Cuts.{all_pieces};
ghost use Rattle.plane.specs.Boundaries.{agree, sides_of};
ghost use Rattle.plane.specs.Keys.{point, InRange, Key, points_at, pairs};
ghost use Rattle.table.specs.Table.{corners, frame_of, outline_of, first_fault, flat};
ghost use Rattle.table.specs.Sides.{triangles_of, found};
ghost use Rattle.table_count.specs.Counting.{Edged};
ghost use Rattle.table_count.specs.Indexed.{Indexed};
ghost use Rattle.table_check.specs.Framing.{FrameInRange, frame_held, wider};
ghost use Rattle.table_check.specs.Checking.{Tableable, CheckOf};

use lent::{Reason, Refusal};
use plane::{Corner, OFFSET};

// The frame's four bounds, each coordinate as it is held.
#[derive(Clone, Copy)]
pub struct Frame {
    pub left: u32,
    pub low: u32,
    pub right: u32,
    pub high: u32,
}

// The number, counted from 1, of the first triangle whose double area is not above 0. The corners are given by their numbers, three for each triangle.
fn flat_triangle(keys: &[u64]) -> Option<usize>
    requires { All Key keys.now }
    ensures { found result ≡ first_fault flat [] (triangles_of keys.now) }
{
    for t in 0..keys.len() / 3 {
        if plane_exact::area_at(keys, t) <= 0 {
            return Some(t + 1);
        }
    }
    None
}

// The frame with one corner more.
pub fn widened(f: Frame, c: Corner) -> Frame
    requires { FrameInRange f × InRange c }
    ensures { FrameInRange result × (frame_held result ≡ wider (point c) (frame_held f)) }
{
    Frame {
        left: c.x.min(f.left),
        low: c.y.min(f.low),
        right: c.x.max(f.right),
        high: c.y.max(f.high),
    }
}

// The frame of n corners, from the last to the first, each given by its place.
pub fn frame_by<F: Fn(usize) -> Corner>(n: usize, corner: F) -> Frame
    requires given { (i : ℕ) → i < n → F.pre corner i }
    requires in_range { (i : ℕ) (c : Corner) → i < n → F.post corner i c → InRange c }
    ensures in_range { FrameInRange result }
    ensures is { (l : List Point) (p : Point) → length l ≡ n → ((i : ℕ) (c : Corner) → i < n → F.post corner i c → point c ≡ get_or l i p) → frame_held result ≡ frame_of l }
{
    if n == 0 {
        return Frame {
            left: OFFSET,
            low: OFFSET,
            right: OFFSET,
            high: OFFSET,
        };
    }
    let last = corner(n - 1);
    let mut f = Frame {
        left: last.x,
        low: last.y,
        right: last.x,
        high: last.y,
    };
    for i in (0..n - 1).rev() {
        f = widened(f, corner(i));
    }
    f
}

// The frame of the corners with these numbers.
pub fn frame_of(keys: &[u64]) -> Frame
    requires { All Key keys.now }
    ensures { FrameInRange result × (frame_held result ≡ frame_of (points_at keys.now)) }
{
    frame_by(keys.len(), |i| plane_exact::corner_at(keys[i]))
}

// The frame's four edges, anticlockwise: where each begins, and where it ends.
pub fn outline(f: Frame, from: &mut [u64], to: &mut [u64])
    requires { FrameInRange f × (length from.old ≡ 4) × (length to.old ≡ 4) }
    ensures { (pairs from.new to.new ≡ outline_of (frame_held f)) × Edged from.new to.new }
{
    let a = plane_exact::key(Corner {
        x: f.left,
        y: f.low,
    });
    let b = plane_exact::key(Corner {
        x: f.right,
        y: f.low,
    });
    let c = plane_exact::key(Corner {
        x: f.right,
        y: f.high,
    });
    let d = plane_exact::key(Corner {
        x: f.left,
        y: f.high,
    });
    from[0] = a;
    from[1] = b;
    from[2] = c;
    from[3] = d;
    to[0] = b;
    to[1] = c;
    to[2] = d;
    to[3] = a;
}

// The set of all triangles, by its labels, has the outline as its boundary.
fn compared(
    keys: &[u64],
    from: &[u64],
    to: &[u64],
    ordered: &[u64],
    index: &[u64],
    opposite: &[usize],
    counts: &mut [u32],
    labels: &[bool],
) -> bool
    requires { Indexed keys.now ordered.now index.now opposite.now × Edged from.now to.now × (length counts.old ≡ length keys.now) × (length labels.now ≡ length (triangles_of keys.now)) × All (λ b. b ≡ true) labels.now }
    ensures { result ≡ agree (sides_of (triangles_of keys.now)) (all_pieces (corners (triangles_of keys.now)) (pairs from.now to.now)) }
{
    if !table_tally::tally(ordered, index, from, to, counts) {
        return false;
    }
    table_labels::agree(opposite, counts, labels)
}

// The set of at most so many triangles has the outline as its boundary, compared in work lists for so many, and for their sides.
fn outlined_in<const TRIANGLES: usize, const SIDES: usize>(
    keys: &[u64],
    from: &[u64],
    to: &[u64],
    ordered: &[u64],
    index: &[u64],
    opposite: &[usize],
) -> bool
    requires { Indexed keys.now ordered.now index.now opposite.now × Edged from.now to.now × (length keys.now ≤ SIDES) × (SIDES ≡ 3 * TRIANGLES) × (TRIANGLES ≤ 1024) }
    ensures { result ≡ agree (sides_of (triangles_of keys.now)) (all_pieces (corners (triangles_of keys.now)) (pairs from.now to.now)) }
{
    let n = keys.len();
    let mut counts = [0u32; SIDES];
    let labels = [true; TRIANGLES];
    compared(
        keys,
        from,
        to,
        ordered,
        index,
        opposite,
        &mut counts[..n],
        &labels[..n / 3],
    )
}

// Rule C: the set of all triangles has the outline as its boundary, by the same comparison as in judging.
fn outlined(
    keys: &[u64],
    from: &[u64],
    to: &[u64],
    ordered: &[u64],
    index: &[u64],
    opposite: &[usize],
) -> bool
    requires { Indexed keys.now ordered.now index.now opposite.now × Edged from.now to.now × (length keys.now ≤ 3072) }
    ensures { result ≡ agree (sides_of (triangles_of keys.now)) (all_pieces (corners (triangles_of keys.now)) (pairs from.now to.now)) }
{
    if keys.len() <= 192 {
        outlined_in::<64, 192>(keys, from, to, ordered, index, opposite)
    } else {
        outlined_in::<1024, 3072>(keys, from, to, ordered, index, opposite)
    }
}

// The table rules in their order: 10 over all triangles, then 11, then 12 against the outline, the edges from the corners of one list to those of the other. A lent
// index may say where the side across a side is looked for first. Where they pass, the answer is the number of different corners.
pub fn check_table(
    keys: &[u64],
    from: &[u64],
    to: &[u64],
    lent: &[u8],
    ordered: &mut [u64],
    index: &mut [u64],
    opposite: &mut [usize],
) -> Result<usize, Refusal>
    requires { ((n : ℕ) × Tableable keys.now n) × Edged from.now to.now × (length ordered.old ≡ length keys.now) × (length index.old ≡ length keys.now) × (length opposite.old ≡ length keys.now) }
    ensures { CheckOf (pairs from.now to.now) keys.now ordered.new index.new opposite.new result }
{
    if let Some(t) = flat_triangle(keys) {
        return Err(Refusal {
            reason: Reason::Flat,
            item: t as u32,
        });
    }
    let n = whole_order::sort(keys, ordered);
    if let Some(t) = table_index::index_sides(keys, &ordered[..n], lent, index, opposite) {
        return Err(Refusal {
            reason: Reason::Repeated,
            item: t as u32,
        });
    }
    if !outlined(keys, from, to, &ordered[..n], index, opposite) {
        return Err(Refusal {
            reason: Reason::Outline,
            item: 0,
        });
    }
    Ok(n)
}
