// Gap regions: the largest groups of gap triangles joined through shared sides, found in one pass.
#![tactic(auto)]

ghost use Rattle.std.specs.Prelude.{◌≡◌, true, false, ◌/◌, ◌≤◌, ◌<◌, length, get_or};
ghost use Rattle.repair_regions.specs.Spreading.{Paired, Meeting, Taken, Grown, Fresh, InRegion, FreshFrom, Across, Rounded, Spread};

// Triangle u is taken into the group unless it has a number or has been met.
fn meet(numbers: &[u8], u: usize, met: &mut [bool], group: &mut [usize], n: usize) -> usize
    requires { (u < length numbers.now) × (u < length met.old) × (get_or met.old u false ≡ false → n < length group.old) }
    ensures { Taken numbers.now u met.old group.old n met.new group.new result }
{
    if numbers[u] != 0 {
        return n;
    }
    if met[u] {
        return n;
    }
    met[u] = true;
    group[n] = u;
    n + 1
}

// The gap across side k is met.
fn cross(
    opposite: &[usize],
    numbers: &[u8],
    k: usize,
    met: &mut [bool],
    group: &mut [usize],
    n: usize,
) -> usize
    requires { Paired opposite.now (length numbers.now) × Meeting numbers.now met.old group.old n × (k < length opposite.now) }
    ensures { Grown numbers.now met.old group.old n met.new group.new result
        × Across opposite.now numbers.now met.new k
        × FreshFrom opposite.now numbers.now met.old met.new (k / 3) }
{
    let o = opposite[k];
    if o == 0 {
        return n;
    }
    meet(numbers, (o - 1) / 3, met, group, n)
}

// The gaps across the three sides of triangle u.
fn around(
    opposite: &[usize],
    numbers: &[u8],
    u: usize,
    met: &mut [bool],
    group: &mut [usize],
    n: usize,
) -> usize
    requires { Paired opposite.now (length numbers.now) × Meeting numbers.now met.old group.old n × (u < length numbers.now) }
    ensures { Grown numbers.now met.old group.old n met.new group.new result
        × Rounded opposite.now numbers.now met.new u
        × FreshFrom opposite.now numbers.now met.old met.new u }
{
    let k = 3 * u;
    let a = cross(opposite, numbers, k, met, group, n);
    let b = cross(opposite, numbers, k + 1, met, group, a);
    cross(opposite, numbers, k + 2, met, group, b)
}

// From each triangle in the group, from `first` on, the gaps across its sides.
fn spreads(
    opposite: &[usize],
    numbers: &[u8],
    t: usize,
    met: &mut [bool],
    group: &mut [usize],
    first: usize,
    start: usize,
) -> usize
    requires { Paired opposite.now (length numbers.now) × Meeting numbers.now met.old group.old start
        × Spread opposite.now numbers.now met.old group.old first × (t < length numbers.now) × (first ≤ start)
        × InRegion opposite.now numbers.now group.old t first start }
    ensures { Grown numbers.now met.old group.old start met.new group.new result
        × Spread opposite.now numbers.now met.new group.new result
        × Fresh opposite.now numbers.now met.old met.new t }
{
    let mut n = start;
    let mut i = first;
    // A while: the group grows as it is gone through.
    while i < n {
        let u = group[i];
        n = around(opposite, numbers, u, met, group, n);
        i += 1;
    }
    n
}

// The region of the gap t, behind what stands in the group.
pub fn collect(
    opposite: &[usize],
    numbers: &[u8],
    t: usize,
    met: &mut [bool],
    group: &mut [usize],
    first: usize,
) -> usize
    requires { Paired opposite.now (length numbers.now) × Meeting numbers.now met.old group.old first
        × Spread opposite.now numbers.now met.old group.old first × (t < length numbers.now) }
    ensures { Grown numbers.now met.old group.old first met.new group.new result
        × Spread opposite.now numbers.now met.new group.new result
        × Fresh opposite.now numbers.now met.old met.new t
        × (get_or numbers.now t 0 ≡ 0 → get_or met.new t false ≡ true) }
{
    let start = meet(numbers, t, met, group, first);
    spreads(opposite, numbers, t, met, group, first, start)
}
