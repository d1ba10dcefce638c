// The choice of the longest shared boundary: of the numbers across a region's sides, the one with the greatest shared length.
#![tactic(auto)]

ghost use Rattle.std.specs.Prelude.{◌≡◌, Bool, List, ◌∷◌, ℕ, ◌+◌, ◌*◌, ◌/◌, ◌≤◌, ◌<◌, length, get_or};
ghost use Rattle.whole.specs.Sums.{All};
ghost use Rattle.repair_regions.specs.Spreading.{Paired};
ghost use Rattle.repair_choices.specs.Choices.{longest};
ghost use Rattle.repair_choices.specs.Adding.{Marked, preferred, Adding};
ghost use Rattle.repair_longest.specs.Held.{TableIn, length_held, lengths_held, Met};

use plane::Corner;

// The length of side k of the table, off the numbers form: from corner k to the next corner of its triangle.
fn side_length(table: &[u32], k: usize) -> u64
    requires { TableIn table.now (k / 3 + 1) }
    ensures { (result ≡ length_held table.now k) × (result ≤ 28_284_271) }
{
    let u = 2 * k + 1;
    let v = 2 * (k - k % 3 + (k + 1) % 3) + 1;
    plane_lengths::length(
        Corner {
            x: table[u],
            y: table[u + 1],
        },
        Corner {
            x: table[v],
            y: table[v + 1],
        },
    )
}

// Of two numbers the one with the greater sum; on equal sums the larger number.
fn preferred(sums: &[u64], best: usize, m: usize) -> usize
    requires { (best < length sums.now) × (m < length sums.now) }
    ensures { result ≡ preferred sums.now best m }
{
    if sums[m] < sums[best] {
        return best;
    }
    if sums[best] < sums[m] {
        return m;
    }
    if best <= m {
        return m;
    }
    best
}

// The length of side k is added to the sum of the number across it, where there is one; the number preferred then.
fn add_side(
    table: &[u32],
    opposite: &[usize],
    numbers: &[u8],
    k: usize,
    sums: &mut [u64],
    best: usize,
) -> usize
    requires { Paired opposite.now (length numbers.now) × TableIn table.now (length numbers.now) × All (λ x. x ≤ 64) numbers.now × (k < length opposite.now)
        × Met 10_000 table.now opposite.now numbers.now sums.old best }
    ensures { (sides : List ℕ) → Adding (lengths_held table.now (length opposite.now)) opposite.now numbers.now sides sums.old best
        → Adding (lengths_held table.now (length opposite.now)) opposite.now numbers.now (k ∷ sides) sums.new result }
{
    let o = opposite[k];
    if o == 0 {
        return best;
    }
    let m = numbers[(o - 1) / 3] as usize;
    if m == 0 {
        return best;
    }
    sums[m] += side_length(table, k);
    preferred(sums, best, m)
}

// The same for the three sides of triangle u.
fn add_triangle(
    table: &[u32],
    opposite: &[usize],
    numbers: &[u8],
    u: usize,
    sums: &mut [u64],
    best: usize,
) -> usize
    requires { Paired opposite.now (length numbers.now) × TableIn table.now (length numbers.now) × All (λ x. x ≤ 64) numbers.now × (u < length numbers.now)
        × Met 9_000 table.now opposite.now numbers.now sums.old best }
    ensures { (sides : List ℕ) → Adding (lengths_held table.now (length opposite.now)) opposite.now numbers.now sides sums.old best
        → Adding (lengths_held table.now (length opposite.now)) opposite.now numbers.now ((3 * u + 2) ∷ (3 * u + 1) ∷ (3 * u) ∷ sides) sums.new result }
{
    let k = 3 * u;
    let a = add_side(table, opposite, numbers, k, sums, best);
    let b = add_side(table, opposite, numbers, k + 1, sums, a);
    add_side(table, opposite, numbers, k + 2, sums, b)
}

// The number with the greatest shared length, of those across the sides of the triangles of the group from `first` on and before n. A sum has the lengths of at most 3,072
// sides, none above 28,284,271: it is below 87,000,000,000.
pub fn longest(
    table: &[u32],
    opposite: &[usize],
    numbers: &[u8],
    group: &[usize],
    first: usize,
    n: usize,
) -> u8
    requires { Paired opposite.now (length numbers.now) × TableIn table.now (length numbers.now) × All (λ x. x ≤ 64) numbers.now × (first ≤ n) × (n ≤ length group.now) × (n ≤ 1024)
        × ((j : ℕ) → j < n → get_or group.now j 0 < length numbers.now) }
    ensures { (marks : List Bool) → Marked group.now first n marks → result ≡ longest (lengths_held table.now (length opposite.now)) opposite.now numbers.now marks }
{
    let mut sums = [0u64; 65];
    let mut best: usize = 0;
    for &u in &group[first..n] {
        best = add_triangle(table, opposite, numbers, u, &mut sums, best);
    }
    best as u8
}
