// The owners of a triangle as one 64-bit set: a polygon's marks, and the count of ones that tells gap, single or overlap.
#![tactic(auto)]

ghost use Rattle.std.specs.Prelude.{◌≡◌, ◌+◌, ◌*◌, ◌^◌, ◌<◌, length};
ghost use Rattle.whole.specs.Sums.{All, bit};
ghost use Rattle.owners_marks.specs.Sets.{marked, standing_of};

// How a triangle stands: a gap, of a single owner, or an overlap with its smallest owner number.
#[derive(Clone, Copy)]
pub enum Standing {
    Gap,
    Single(u32),
    Overlap(u32),
}

// Count of ones tells gap, single or overlap; trailing zeros give the smallest owner number.
pub fn standing_of(set: u64) -> Standing
    ensures { result ≡ standing_of set }
{
    let n = u64::count_ones(set);
    if n == 0 {
        return Standing::Gap;
    }
    let k = u64::trailing_zeros(set) + 1;
    if n == 1 {
        return Standing::Single(k);
    }
    Standing::Overlap(k)
}

// A set with the mark of one more polygon, behind the k there are.
fn with_mark(set: u64, k: u32, label: bool) -> u64
    requires { (k < 64) × (set < 2 ^ k) }
    ensures { result ≡ set + bit label * 2 ^ k }
{
    if label {
        return set + (1u64 << k);
    }
    set
}

// The marks of one more polygon, behind the k there are, as bit k of each set.
pub fn mark(labels: &[bool], k: u32, sets: &mut [u64])
    requires { (length labels.now ≡ length sets.old) × (k < 64) × All (λ x. x < 2 ^ k) sets.old }
    ensures { (sets.new ≡ marked k labels.now sets.old) × (length sets.new ≡ length sets.old) }
{
    for (t, set) in sets.iter_mut().enumerate() {
        *set = with_mark(*set, k, labels[t]);
    }
}
