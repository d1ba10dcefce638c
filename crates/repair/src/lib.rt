// Repair: overlaps settled to their smallest owner number, and each gap region given to the number chosen for it.
#![tactic(auto)]

ghost use Rattle.std.specs.Prelude.{◌≡◌, ◌==◌, Bool, false, List, map, IfSome, ℕ, ◌*◌, ◌+◌, ◌≤◌, ◌<◌, length, get_or, replicate};
ghost use Rattle.std.specs.List.{list_all, position};
ghost use Rattle.whole.specs.Sums.{All};
ghost use Rattle.owners_marks.specs.Sets.{owners_of, standing_of};
ghost use Rattle.repair_regions.specs.Spreading.{Paired};
ghost use Rattle.repair_choices.specs.Choices.{greater, beyond, choice_by};
ghost use Rattle.repair_choices.specs.Adding.{Marked};
ghost use Rattle.repair_longest.specs.Held.{TableIn, lengths_held};
ghost use Rattle.repair.specs.Repair.{settled_by, settled, numbers_given};
ghost use Rattle.repair.specs.Giving.{RepairedTo, RepairedBy, Best, Filled, State, Further};

use lent::{Reason, Refusal};

// The owner number of a triangle once the overlaps are settled; 0 for a gap.
fn owner_of(set: u64) -> u8
    ensures { result ≡ settled_by (standing_of set) }
{
    match owners_marks::standing_of(set) {
        owners_marks::Standing::Gap => 0,
        owners_marks::Standing::Single(k) | owners_marks::Standing::Overlap(k) => k as u8,
    }
}

// The owner number of each triangle once the overlaps are settled.
fn settle(sets: &[u64], numbers: &mut [u8])
    requires { length sets.now ≡ length numbers.old }
    ensures { numbers.new ≡ settled (map owners_of sets.now) }
{
    for (t, set) in sets.iter().enumerate() {
        numbers[t] = owner_of(*set);
    }
}

// The greater of the number across side k and one at hand.
fn with_side(opposite: &[usize], numbers: &[u8], k: usize, best: u8) -> u8
    requires { Paired opposite.now (length numbers.now) × (k < length opposite.now) }
    ensures { result ≡ greater best (beyond opposite.now numbers.now (get_or opposite.now k 0)) }
{
    let o = opposite[k];
    if o == 0 {
        return best;
    }
    best.max(numbers[(o - 1) / 3])
}

// The triangles of the group from `first` on and before n are given to one owner.
fn fill(group: &[usize], first: usize, n: usize, owner: u8, owners: &mut [u8])
    requires { (first ≤ n) × (n ≤ length group.now) × ((j : ℕ) → j < n → get_or group.now j 0 < length owners.old) }
    ensures { Filled group.now first n owner owners.old owners.new }
{
    for &u in &group[first..n] {
        owners[u] = owner;
    }
}

// The greatest of the numbers across the sides of triangle u and one at hand.
fn with_triangle(opposite: &[usize], numbers: &[u8], u: usize, best: u8) -> u8
    requires { Paired opposite.now (length numbers.now) × (u < length numbers.now) }
    ensures { result ≡ greater (greater (greater best (beyond opposite.now numbers.now (get_or opposite.now (3 * u) 0)))
        (beyond opposite.now numbers.now (get_or opposite.now (3 * u + 1) 0)))
        (beyond opposite.now numbers.now (get_or opposite.now (3 * u + 2) 0)) }
{
    let k = 3 * u;
    let a = with_side(opposite, numbers, k, best);
    let b = with_side(opposite, numbers, k + 1, a);
    with_side(opposite, numbers, k + 2, b)
}

// The largest number across the sides of the triangles of the group from `first` on and before n.
fn highest(opposite: &[usize], numbers: &[u8], group: &[usize], first: usize, n: usize) -> u8
    requires { Paired opposite.now (length numbers.now) × (first ≤ n) × (n ≤ length group.now) × ((j : ℕ) → j < n → get_or group.now j 0 < length numbers.now) }
    ensures { Best opposite.now numbers.now group.now first n result }
{
    let mut best: u8 = 0;
    for &u in &group[first..n] {
        best = with_triangle(opposite, numbers, u, best);
    }
    best
}

// The number chosen in a way for the triangles of the group from `first` on and before n.
fn choose(
    way: u32,
    table: &[u32],
    opposite: &[usize],
    numbers: &[u8],
    group: &[usize],
    first: usize,
    n: usize,
) -> u8
    requires { Paired opposite.now (length numbers.now) × TableIn table.now (length numbers.now) × All (λ x. x ≤ 64) numbers.now × (first ≤ n) × (n ≤ length group.now) × (n ≤ 1024)
        × ((j : ℕ) → j < n → get_or group.now j 0 < length numbers.now) }
    ensures { (marks : List Bool) → Marked group.now first n marks
        → result ≡ choice_by way (lengths_held table.now (length opposite.now)) opposite.now numbers.now marks }
{
    // A switch: a way is asked for by its number, and a closure would only hand this test on.
    if way == 0 {
        return highest(opposite, numbers, group, first, n);
    }
    repair_longest::longest(table, opposite, numbers, group, first, n)
}

// The region of triangle t, where it is a gap that has not been met, is given to the number chosen for it.
fn give(
    way: u32,
    table: &[u32],
    opposite: &[usize],
    numbers: &[u8],
    t: usize,
    met: &mut [bool],
    group: &mut [usize],
    first: usize,
    owners: &mut [u8],
) -> usize
    requires { Paired opposite.now (length numbers.now) × TableIn table.now (length numbers.now) × All (λ x. x ≤ 64) numbers.now × (length numbers.now ≤ 1024)
        × State (choice_by way (lengths_held table.now (length opposite.now)) opposite.now) opposite.now numbers.now met.old group.old first owners.old × (t < length numbers.now) }
    ensures { State (choice_by way (lengths_held table.now (length opposite.now)) opposite.now) opposite.now numbers.now met.new group.new result owners.new
        × Further numbers.now met.old met.new t }
{
    if numbers[t] != 0 {
        return first;
    }
    if met[t] {
        return first;
    }
    let n = repair_regions::collect(opposite, numbers, t, met, group, first);
    let owner = choose(way, table, opposite, numbers, group, first, n);
    fill(group, first, n, owner, owners);
    n
}

// Each gap region is given to the number chosen for it; the other triangles keep theirs.
fn give_all(
    way: u32,
    table: &[u32],
    opposite: &[usize],
    numbers: &[u8],
    met: &mut [bool],
    group: &mut [usize],
    owners: &mut [u8],
)
    requires { Paired opposite.now (length numbers.now) × TableIn table.now (length numbers.now) × All (λ x. x ≤ 64) numbers.now × (length numbers.now ≤ 1024)
        × (met.old ≡ replicate (length numbers.now) false) × (length group.old ≡ length numbers.now) × (owners.old ≡ numbers.now) }
    ensures { owners.new ≡ numbers_given (choice_by way (lengths_held table.now (length opposite.now)) opposite.now) opposite.now numbers.now }
{
    let mut n: usize = 0;
    for t in 0..numbers.len() {
        n = give(way, table, opposite, numbers, t, met, group, n, owners);
    }
}

// No triangle has an owner.
fn none_owned(numbers: &[u8]) -> bool
    ensures { result ≡ list_all (λ k. k == 0) numbers.now }
{
    numbers.iter().all(|k| *k == 0)
}

// The first triangle that nobody could be given.
fn first_ungiven(owners: &[u8]) -> Option<usize>
    ensures first { result ≡ position (λ k. k == 0) owners.now }
    ensures within { IfSome result (λ t. t < length owners.now) }
{
    owners.iter().position(|k| *k == 0)
}

// Repair in a way that is known: the owner number of each triangle, from the owner sets. 30 where no triangle has an owner, and the list is as it was; 31
// with the first triangle that nobody can be given, and the list has the numbers given.
fn in_way(
    way: u32,
    table: &[u32],
    opposite: &[usize],
    sets: &[u64],
    owners: &mut [u8],
) -> Result<(), Refusal>
    requires { Paired opposite.now (length sets.now) × (length owners.old ≡ length sets.now) × (length sets.now ≤ 1024) × TableIn table.now (length sets.now) }
    ensures { RepairedTo (choice_by way (lengths_held table.now (length opposite.now)) opposite.now) opposite.now (map owners_of sets.now) owners.old result owners.new }
{
    let n = sets.len();
    let mut numbers = [0u8; 1024];
    let mut met = [false; 1024];
    let mut group = [0usize; 1024];
    settle(sets, &mut numbers[..n]);
    if none_owned(&numbers[..n]) {
        return Err(Refusal {
            reason: Reason::NoOwner,
            item: 0,
        });
    }
    settle(sets, owners);
    give_all(
        way,
        table,
        opposite,
        &numbers[..n],
        &mut met[..n],
        &mut group[..n],
        owners,
    );
    match first_ungiven(owners) {
        Some(t) => Err(Refusal {
            reason: Reason::Ungiven,
            item: t as u32 + 1,
        }),
        None => Ok(()),
    }
}

// Repair in a way, by the table's corners off the numbers form. 54 where the way is unknown, and the list is as it was.
pub fn repair(
    way: u32,
    table: &[u32],
    opposite: &[usize],
    sets: &[u64],
    owners: &mut [u8],
) -> Result<(), Refusal>
    requires { Paired opposite.now (length sets.now) × (length owners.old ≡ length sets.now) × (length sets.now ≤ 1024) × TableIn table.now (length sets.now) }
    ensures { RepairedBy way (lengths_held table.now (length opposite.now)) opposite.now (map owners_of sets.now) owners.old result owners.new }
{
    if way > 1 {
        return Err(Refusal {
            reason: Reason::Way,
            item: 0,
        });
    }
    in_way(way, table, opposite, sets, owners)
}
