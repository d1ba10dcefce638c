// The boundary side that follows an arriving one: the sides that leave the corner are gone through anticlockwise, from the arriving side on, up to the first of
// the polygon's triangles.
#![tactic(auto)]

ghost use Rattle.std.specs.Prelude.{◌≡◌, ℕ, ◌≤◌, ◌<◌, length};
ghost use Rattle.lent_little.specs.Held.{end_of};
ghost use Rattle.repair_regions.specs.Spreading.{Paired};
ghost use Rattle.repair_follower.specs.Follower.{side_before, along_frame, turned_to, follower as follower_of};

// The side of the same triangle that leaves where side k ends.
fn next_side(k: usize) -> usize
    requires { k < 3072 }
    ensures { result ≡ end_of k }
{
    k - k % 3 + (k + 1) % 3
}

// The side of the same triangle that ends where side k begins.
fn side_before(k: usize) -> usize
    requires { k < 3072 }
    ensures { result ≡ side_before k }
{
    k - k % 3 + (k + 2) % 3
}

// From side k on, clockwise round the corner at which it begins, the one with no triangle across.
fn along_frame(opposite: &[usize], k: usize) -> usize
    requires { ((n : ℕ) × Paired opposite.now n × (n ≤ 1024)) × (k < length opposite.now) }
    ensures { (result ≡ along_frame opposite.now k) × (result < length opposite.now) }
{
    let mut s = k;
    for _ in 0..opposite.len() {
        if opposite[s] == 0 {
            return s;
        }
        s = next_side(opposite[s] - 1);
    }
    s
}

// The first side anticlockwise round the end of side k: the reverse of k, or that along the frame.
fn turned_to(opposite: &[usize], k: usize) -> usize
    requires { ((n : ℕ) × Paired opposite.now n × (n ≤ 1024)) × (k < length opposite.now) }
    ensures { (result ≡ turned_to opposite.now k) × (result < length opposite.now) }
{
    if opposite[k] == 0 {
        return along_frame(opposite, next_side(k));
    }
    opposite[k] - 1
}

// The boundary side of the polygon that follows its boundary side k.
pub fn follower(opposite: &[usize], owners: &[u8], polygon: u8, k: usize) -> usize
    requires { Paired opposite.now (length owners.now) × (k < length opposite.now) × (length owners.now ≤ 1024) }
    ensures { (result ≡ follower_of opposite.now owners.now polygon k) × (result < length opposite.now) }
{
    let mut s = turned_to(opposite, k);
    for _ in 0..opposite.len() {
        if owners[s / 3] == polygon {
            return s;
        }
        s = turned_to(opposite, side_before(s));
    }
    s
}
