// The length of an edge: the whole root of dx² + dy².
#![tactic(auto)]

ghost use Rattle.std.specs.Prelude.{◌≡◌, ◌≤◌, nat_abs, ◌-ℤ◌};
ghost use Rattle.plane.specs.Points.{◌⟶◌};
ghost use Rattle.plane.specs.Corners.{millimetres};
ghost use Rattle.plane.specs.Keys.{point, Held, InRange};
ghost use Rattle.plane_lengths.specs.Lengths.{length_of};

use plane::Corner;

// How far two coordinates are apart.
fn apart(u: u32, v: u32) -> u64
    requires { Held u × Held v }
    ensures { (result ≡ nat_abs (millimetres v -ℤ millimetres u)) × (result ≤ 20_000_000) }
{
    u64::from(u.abs_diff(v))
}

// The length of the edge from u to v: at most 28,284,271, the way across the largest frame.
pub fn length(u: Corner, v: Corner) -> u64
    requires { InRange u × InRange v }
    ensures { (result ≡ length_of (point u ⟶ point v)) × (result ≤ 28_284_271) }
{
    let dx = apart(u.x, v.x);
    let dy = apart(u.y, v.y);
    whole_root::root(dx * dx + dy * dy)
}
