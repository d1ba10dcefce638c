// Which doubles are coordinates. A coordinate is held as in crate plane: itself plus 10,000,000.
#![tactic(auto)]

ghost use Rattle.std.specs.Prelude.{◌≡◌};
ghost use Rattle.whole.specs.Numbers.{Within};
ghost use Rattle.sheet_coordinate.specs.Coordinate.{held_of, coordinate_of};

// The number that n is held as.
fn held(n: i32) -> u32
    requires { Within 10_000_000 n }
    ensures { result ≡ held_of n }
{
    (n + 10_000_000) as u32
}

// The number that a coordinate is held as; none where the double is no coordinate. A NaN fails the first test. y is x without its fraction, and
// 0.0 for -0.0, so that its cast loses nothing.
pub fn judge(x: f64) -> Option<u32>
    ensures { result ≡ coordinate_of x }
{
    if x >= -10000000.0 && x <= 10000000.0 {
        let y = std::num::nearest_i64_to_f64(std::num::truncating_f64_to_i64(x));
        if x == y {
            return Some(held(y as i32));
        }
    }
    None
}
