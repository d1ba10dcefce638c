// Corners as one number each, and the exact predicates on them: double area, "strictly between".
#![tactic(auto)]

ghost use Rattle.std.specs.Prelude.{◌≡◌, ◌+◌, ◌*◌, ◌<◌, ◌+ℤ◌, ◌-ℤ◌, ◌*ℤ◌, length};
ghost use Rattle.whole.specs.Numbers.{Within};
ghost use Rattle.whole.specs.Sums.{All};
ghost use Rattle.plane.specs.Points.{◌⟶◌, turn, double, between};
ghost use Rattle.plane.specs.Corners.{millimetres};
ghost use Rattle.plane.specs.Keys.{key_of, corner_of, point, Held, InRange, point_at, Key, pair, triangle_at};

use plane::Corner;

// The number of a corner.
pub fn key(c: Corner) -> u64
    ensures { result ≡ key_of c }
{
    c.x as u64 * 4_294_967_296 + c.y as u64
}

// The corner of a number.
pub fn corner_at(k: u64) -> Corner
    ensures { result ≡ corner_of k }
{
    Corner {
        x: (k / 4_294_967_296) as u32,
        y: (k % 4_294_967_296) as u32,
    }
}

// The way from one coordinate to another.
fn way(u: u32, v: u32) -> i64
    requires { Held u × Held v }
    ensures { (result ≡ millimetres v -ℤ millimetres u) × Within 20_000_000 result }
{
    v as i64 - u as i64
}

// The sum of two products of ways.
fn products(a: i64, b: i64, c: i64, d: i64) -> i64
    requires { Within 20_000_000 a × Within 20_000_000 b × Within 20_000_000 c × Within 20_000_000 d }
    ensures { result ≡ a *ℤ b +ℤ c *ℤ d }
{
    a * b + c * d
}

// The double area of the triangle (a, b, c).
pub fn double_area(a: Corner, b: Corner, c: Corner) -> i64
    requires { InRange a × InRange b × InRange c }
    ensures { result ≡ turn (point a) (point b) (point c) }
{
    products(way(a.x, b.x), way(a.y, c.y), way(c.x, a.x), way(a.y, b.y))
}

// The double area of triangle t, counted from 0. The corners are given by their numbers, three for each triangle.
pub fn area_at(keys: &[u64], t: usize) -> i64
    requires { All Key keys.now × (3 * t + 2 < length keys.now) }
    ensures { result ≡ double (triangle_at keys.now t) }
{
    let i = 3 * t;
    let a = corner_at(keys[i]);
    let b = corner_at(keys[i + 1]);
    let c = corner_at(keys[i + 2]);
    double_area(a, b, c)
}

// The corner c is strictly between p and q on the straight line.
fn strictly_between(c: Corner, p: Corner, q: Corner) -> bool
    requires { InRange c × InRange p × InRange q }
    ensures { result ≡ between (point c) (point p ⟶ point q) }
{
    if double_area(p, c, q) != 0 {
        return false;
    }
    0 < products(way(p.x, c.x), way(c.x, q.x), way(p.y, c.y), way(c.y, q.y))
}

// The corner numbered c is strictly between those numbered p and q on the straight line.
pub fn on_way(c: u64, p: u64, q: u64) -> bool
    requires { Key c × Key p × Key q }
    ensures { result ≡ between (point_at c) (pair p q) }
{
    strictly_between(corner_at(c), corner_at(p), corner_at(q))
}
