// The boundary sides of a polygon after repair.
#![tactic(auto)]

ghost use Rattle.std.specs.Prelude.{◌≡◌, ◌<◌, length};
ghost use Rattle.repair_regions.specs.Spreading.{Paired};
ghost use Rattle.repair_sides.specs.Numbered.{bounds, boundary_numbers, LaidDown};

// Side k bounds the polygon: its own triangle is the polygon's, and the one across is not.
fn is_bound(opposite: &[usize], owners: &[u8], polygon: u8, k: usize) -> bool
    requires { Paired opposite.now (length owners.now) × (k < length opposite.now) }
    ensures { result ≡ bounds opposite.now owners.now polygon k }
{
    if owners[k / 3] != polygon {
        return false;
    }
    let o = opposite[k];
    if o == 0 {
        return true;
    }
    owners[(o - 1) / 3] != polygon
}

// The boundary sides of a polygon by number, laid down at the front of the lent ones; those behind them are as they were.
pub fn boundary(opposite: &[usize], owners: &[u8], polygon: u8, sides: &mut [usize]) -> usize
    requires { Paired opposite.now (length owners.now) × (length sides.old ≡ length opposite.now) }
    ensures { LaidDown (boundary_numbers opposite.now owners.now polygon) sides.old result sides.new }
{
    let mut n: usize = 0;
    for k in 0..opposite.len() {
        if is_bound(opposite, owners, polygon, k) {
            sides[n] = k;
            n += 1;
        }
    }
    n
}
