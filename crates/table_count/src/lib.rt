// What counting the boundary of edges at each side of the table needs: where an edge is cut, and the number of a side.
#![tactic(auto)]

ghost use Rattle.std.specs.Prelude.{◌≡◌, List, ◌≤◌, ◌<◌, length, get_or};
ghost use Rattle.whole.specs.Sums.{All};
ghost use Rattle.plane.specs.Points.{Edge};
ghost use Rattle.plane.specs.Keys.{Key, pair};
ghost use Rattle.table.specs.Opposites.{found_at};
ghost use Rattle.whole_order.specs.Ascending.{Ascending};
ghost use Rattle.table_sides.specs.Numbered.{number_in};
ghost use Rattle.table.specs.Sides.{evenly};
ghost use Rattle.table_count.specs.Counting.{Looked, NextStop};

// The place of the first corner from `at` on that is strictly between u and v; the number of corners where there is none.
pub fn next_stop(corners: &[u64], at: usize, u: u64, v: u64) -> usize
    requires { Ascending corners.now × All Key corners.now × Key u × Key v × (u < v) × (at ≤ length corners.now) }
    ensures { NextStop corners.now at u v result }
{
    for i in at..corners.len() {
        if v <= corners[i] {
            return corners.len();
        }
        if plane_exact::on_way(corners[i], u, v) {
            return i;
        }
    }
    corners.len()
}

// The number, counted from 1, of u among the corners; 0 where it is none of them.
pub fn rank(corners: &[u64], u: u64) -> usize
    requires { Ascending corners.now }
    ensures { result ≡ number_in u corners.now }
{
    let at = whole_order::place(corners, u);
    if at < corners.len() {
        if corners[at] == u {
            return at + 1;
        }
    }
    0
}

// The number, counted from 1, of the side from the corner with place a to the one with place b; 0 where that is no side.
pub fn side_at(corners: &[u64], index: &[u64], a: usize, b: usize) -> usize
    requires { ((sides : List Edge) × Looked sides corners.now index.now) × (a < length corners.now) × (b < length corners.now) }
    ensures { (sides : List Edge) → Looked sides corners.now index.now → result ≡ found_at (pair (get_or corners.now a 0) (get_or corners.now b 0)) sides }
{
    table_sides::side_of(index, table_sides::code(a, b))
}

// Each count is 0.
pub fn clear(counts: &mut [u32])
    ensures { (length counts.new ≡ length counts.old) × All (λ n. n ≡ evenly) counts.new }
{
    counts.fill(table::EVEN);
}
