// The double area of one ring off a sheet in numbers, with one product at each corner: its x times the difference of the y after it and the y before it.
#![tactic(auto)]

ghost use Rattle.std.specs.Prelude.{◌≡◌, List, ◌*◌, ℤ, pos, ◌-ℤ◌, ◌*ℤ◌, length};
ghost use Rattle.whole.specs.Numbers.{Within};
ghost use Rattle.plane.specs.Members.{Ring, edges};
ghost use Rattle.plane.specs.Keys.{Held};
ghost use Rattle.plane_rings.specs.Rings.{ring_area};
ghost use Rattle.sheet_sums.specs.Standing.{RingAt};

use plane::OFFSET;

// A corner's x times the difference of the y after it and the y before it, all as they are held.
fn product(x: u32, before: u32, after: u32) -> i64
    requires { Held x × Held before × Held after }
    ensures { (result ≡ pos x *ℤ (pos after -ℤ pos before)) × Within 400_000_000_000_000 result }
{
    x as i64 * (after as i64 - before as i64)
}

// The double area of the ring that stands at a place, no larger than one product for each edge can make it. The closing point is no corner: before the first corner comes the last but one of the points.
pub fn sum(numbers: &[u32], at: usize) -> i64
    requires { (r : Ring) × (rest : List ℤ) × RingAt numbers.now at r rest }
    ensures { (r : Ring) (rest : List ℤ) → RingAt numbers.now at r rest → (result ≡ ring_area r) × Within (400_000_000_000_000 * length (edges r)) result }
{
    let corners = (numbers[at] - OFFSET) as usize - 1;
    let mut before = numbers[at + 2 * corners];
    let mut total: i64 = 0;
    for k in 0..corners {
        let here = at + 1 + 2 * k;
        total += product(numbers[here], before, numbers[here + 3]);
        before = numbers[here + 1];
    }
    total
}
