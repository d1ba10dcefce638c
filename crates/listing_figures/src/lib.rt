// The figures of the listing: the double area of each triangle; of how many triangles a figure is, and their double area.
#![tactic(auto)]

ghost use Rattle.std.specs.Prelude.{◌≡◌, ◌≤◌, ◌*◌, length, map, pos};
ghost use Rattle.whole.specs.Sums.{All};
ghost use Rattle.table.specs.Sets.{chosen};
ghost use Rattle.listing_figures.specs.Figures.{counts, marks_of, total};
ghost use Rattle.plane.specs.Points.{double};
ghost use Rattle.plane.specs.Keys.{Key};
ghost use Rattle.table.specs.Table.{RuleA};
ghost use Rattle.table.specs.Sides.{triangles_of};

use owners_marks::Standing;

// The double area of each triangle of a table with rule A, off its corners, three for each.
pub fn areas(keys: &[u64], areas: &mut [u64])
    requires { All Key keys.now × RuleA (triangles_of keys.now) × (length keys.now ≡ 3 * length areas.old) }
    ensures { (map pos areas.new ≡ map double (triangles_of keys.now)) × All (λ a. a ≤ 800_000_000_000_000) areas.new }
{
    for (t, area) in areas.iter_mut().enumerate() {
        *area = plane_exact::area_at(keys, t) as u64;
    }
}

// Which triangles a figure is of: the gaps, the overlaps, or those that a polygon owns after repair.
#[derive(Clone, Copy)]
pub enum Figure {
    Gaps,
    Overlaps,
    After(u32),
}

// How many triangles there are, and their double area.
#[derive(Clone, Copy)]
pub struct Total {
    pub triangles: usize,
    pub area: u64,
}

// The figure is of a triangle with this owner set before repair and this number after.
fn is_counted(which: Figure, set: u64, owner: u8) -> bool
    ensures { result ≡ counts which set owner }
{
    match which {
        Figure::Gaps => matches!(owners_marks::standing_of(set), Standing::Gap),
        Figure::Overlaps => matches!(owners_marks::standing_of(set), Standing::Overlap(_)),
        Figure::After(k) => owner as u32 == k,
    }
}

// The triangles that a figure is of.
pub fn tally(which: Figure, sets: &[u64], owners: &[u8], areas: &[u64]) -> Total
    requires { (length sets.now ≡ length areas.now) × (length owners.now ≡ length areas.now) × (length areas.now ≤ 1024) × All (λ a. a ≤ 800_000_000_000_000) areas.now }
    ensures { (result.triangles ≡ length (chosen areas.now (marks_of which sets.now owners.now)))
        × (result.area ≡ total (chosen areas.now (marks_of which sets.now owners.now))) }
{
    let mut triangles: usize = 0;
    let mut area: u64 = 0;
    for t in 0..areas.len() {
        if is_counted(which, sets[t], owners[t]) {
            triangles += 1;
            area += areas[t];
        }
    }
    Total { triangles, area }
}
