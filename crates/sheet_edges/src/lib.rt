// The edges of one polygon of a sheet in numbers, laid down in two lists of corners: where each edge begins, and where it ends. The corners of its table.
#![tactic(auto)]

ghost use Rattle.std.specs.Prelude.{◌≡◌, ◌+◌, ◌*◌, ◌<◌, ℤ, length};
ghost use mathlib.Core.List.{List, flat_map};
ghost use Rattle.whole.specs.Sums.{All};
ghost use Rattle.plane.specs.Points.{Triangle};
ghost use Rattle.plane.specs.Members.{edges, member_edges};
ghost use Rattle.plane.specs.Keys.{Held, key_of, Key};
ghost use Rattle.table.specs.Sides.{triangles_of};
ghost use Rattle.sheet_form.specs.Numbers.{counted, triangle_numbers, ring_numbers, part_numbers, member_numbers};
ghost use Rattle.sheet_edges.specs.Standing.{NumbersAt, corner_at, Room, Lays, LaysDown};

use plane::{Corner, OFFSET};

// The place behind what was read, and the place behind the edges that are laid down.
#[derive(Clone, Copy)]
pub struct Laid {
    pub at: usize,
    pub fill: usize,
}

// The number of the corner whose coordinates stand at a place.
fn point(numbers: &[u32], at: usize) -> u64
    requires { at + 1 < length numbers.now }
    ensures { result ≡ key_of (corner_at numbers.now at) }
{
    plane_exact::key(Corner {
        x: numbers[at],
        y: numbers[at + 1],
    })
}

// Lays down the edges of a ring: each point to the next.
fn ring(numbers: &[u32], at: usize, from: &mut [u64], to: &mut [u64], fill: usize) -> Laid
    requires { Room ring_numbers edges numbers.now at fill from.old to.old }
    ensures { Lays ring_numbers edges numbers.now at fill from.old to.old from.new to.new result }
{
    let points = (numbers[at] - OFFSET) as usize;
    let edges = points.saturating_sub(1);
    for k in 0..edges {
        let here = at + 1 + 2 * k;
        from[fill + k] = point(numbers, here);
        to[fill + k] = point(numbers, here + 2);
    }
    Laid {
        at: at + 1 + 2 * points,
        fill: fill + edges,
    }
}

// Lays down the edges of a part: those of each of its rings.
fn part(numbers: &[u32], at: usize, from: &mut [u64], to: &mut [u64], fill: usize) -> Laid
    requires { Room part_numbers (flat_map edges) numbers.now at fill from.old to.old }
    ensures { Lays part_numbers (flat_map edges) numbers.now at fill from.old to.old from.new to.new result }
{
    let mut laid = Laid { at: at + 1, fill };
    for _ in 0..numbers[at] - OFFSET {
        laid = ring(numbers, laid.at, from, to, laid.fill);
    }
    laid
}

// Lays down the edges of a polygon of the sheet, those of each of its parts, at the front of both lists.
pub fn polygon(numbers: &[u32], at: usize, from: &mut [u64], to: &mut [u64]) -> Laid
    requires { Room member_numbers member_edges numbers.now at 0 from.old to.old }
    ensures { LaysDown numbers.now at from.old to.old from.new to.new result }
{
    let mut laid = Laid {
        at: at + 1,
        fill: 0,
    };
    for _ in 0..numbers[at] - OFFSET {
        laid = part(numbers, laid.at, from, to, laid.fill);
    }
    laid
}

// Lays down the corners of the table, which stands at the front of the numbers.
pub fn corners(numbers: &[u32], keys: &mut [u64])
    requires { All Held numbers.now × ((table : List Triangle) × (rest : List ℤ) × NumbersAt (counted triangle_numbers) numbers.now 0 table rest × (length keys.old ≡ 3 * length table)) }
    ensures { ((table : List Triangle) (rest : List ℤ) → NumbersAt (counted triangle_numbers) numbers.now 0 table rest → length keys.old ≡ 3 * length table
        → triangles_of keys.new ≡ table)
        × All Key keys.new × (length keys.new ≡ length keys.old) }
{
    for (i, key) in keys.iter_mut().enumerate() {
        *key = point(numbers, 1 + 2 * i);
    }
}
