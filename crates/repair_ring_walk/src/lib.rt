// The boundary sides of a polygon after repair joined into rings, by number: one ring behind the other, and where each ends.
#![tactic(auto)]

ghost use Rattle.std.specs.Prelude.{◌≡◌, [], ◌-◌, ◌≤◌, ◌<◌, length};
ghost use Rattle.whole.specs.Sums.{All};
ghost use Rattle.repair_regions.specs.Spreading.{Paired};
ghost use Rattle.repair_follower.specs.Follower.{follower};
ghost use Rattle.repair_ring_walk.specs.Walk.{numbers_from, ring_numbers, RingDown, RingsDown};

// Lays down a ring from a place on: its first side, the one that follows, and so on until the next would be the first; each is marked. The place behind them.
fn walk(
    opposite: &[usize],
    owners: &[u8],
    polygon: u8,
    first: usize,
    order: &mut [usize],
    at: usize,
    taken: &mut [bool],
) -> usize
    requires { Paired opposite.now (length owners.now) × (length owners.now ≤ 1024) × (first < length opposite.now) × (at ≤ length order.old) × (length opposite.now ≤ length taken.old) }
    ensures { RingDown (numbers_from (length order.old - at) (follower opposite.now owners.now polygon) first first) at
        order.old taken.old result order.new taken.new }
{
    let mut s = first;
    for n in at..order.len() {
        order[n] = s;
        taken[s] = true;
        s = repair_follower::follower(opposite, owners, polygon, s);
        if s == first {
            return n + 1;
        }
    }
    order.len()
}

// The rings of the boundary sides, each begun at the first side that no ring before it has. How many they are.
pub fn rings(
    opposite: &[usize],
    owners: &[u8],
    polygon: u8,
    sides: &[usize],
    order: &mut [usize],
    ends: &mut [usize],
) -> usize
    requires { Paired opposite.now (length owners.now) × (length owners.now ≤ 1024) × All (λ k. k < length opposite.now) sides.now
        × (length order.old ≡ length sides.now) × (length ends.old ≡ length sides.now) }
    ensures { RingsDown (ring_numbers (length sides.now) (follower opposite.now owners.now polygon) [] sides.now)
        order.old ends.old result order.new ends.new }
{
    let mut taken = [false; 3072];
    let mut n: usize = 0;
    let mut r: usize = 0;
    for &k in sides {
        if !taken[k] {
            n = walk(opposite, owners, polygon, k, order, n, &mut taken);
            ends[r] = n;
            r += 1;
        }
    }
    r
}
