// Whether a grid point belongs to a triangle. The triangle's corners are held; the point is any two numbers of 32 bits, in millimetres.
#![tactic(auto)]

ghost use Rattle.std.specs.Prelude.{◌≡◌, ◌-ℤ◌};
ghost use Rattle.whole.specs.Numbers.{Within};
ghost use Rattle.plane.specs.Points.{◌⟶◌, turn};
ghost use Rattle.plane.specs.Corners.{millimetres};
ghost use Rattle.plane.specs.Keys.{point, Held, InRange};
ghost use Rattle.plane_winding.specs.Winding.{leans, keeps, belongs};

use plane::{Corner, OFFSET};

// The way from a held coordinate to one of the point.
fn reach(u: u32, z: i32) -> i64
    requires { Held u }
    ensures { (result ≡ z -ℤ millimetres u) × Within 2_157_483_648 result }
{
    z as i64 + OFFSET as i64 - u as i64
}

// The turn from u by v to the point: at most 2^57, so that no product wraps.
fn turn(u: Corner, v: Corner, x: i32, y: i32) -> i64
    requires { InRange u × InRange v }
    ensures { result ≡ turn (point u) (point v) (record { x = x; y = y }) }
{
    let dx = v.x as i64 - u.x as i64;
    let dy = v.y as i64 - u.y as i64;
    dx * reach(u.y, y) - reach(u.x, x) * dy
}

// The side from u to v runs downward, or level to the right.
fn leans(u: Corner, v: Corner) -> bool
    ensures { result ≡ leans (point u ⟶ point v) }
{
    if v.y < u.y {
        return true;
    }
    if u.y < v.y {
        return false;
    }
    u.x < v.x
}

// The side from u to v keeps the point: it is strictly to the left, or on the line of a side that runs downward or level to the right.
fn keeps(u: Corner, v: Corner, x: i32, y: i32) -> bool
    requires { InRange u × InRange v }
    ensures { result ≡ keeps (record { x = x; y = y }) (point u ⟶ point v) }
{
    let t = turn(u, v, x, y);
    if t == 0 {
        return leans(u, v);
    }
    0 < t
}

// The point belongs to the triangle (a, b, c).
pub fn belongs(a: Corner, b: Corner, c: Corner, x: i32, y: i32) -> bool
    requires { InRange a × InRange b × InRange c }
    ensures { result ≡ belongs (record { x = x; y = y }) (record { a = point a; b = point b; c = point c }) }
{
    if !keeps(a, b, x, y) {
        return false;
    }
    if !keeps(b, c, x, y) {
        return false;
    }
    keeps(c, a, x, y)
}
