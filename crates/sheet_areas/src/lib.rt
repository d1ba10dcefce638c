// The double area of each polygon of a sheet in numbers, from its corners alone.
#![tactic(auto)]

ghost use Rattle.std.specs.Prelude.{◌≡◌, ℕ, length, take};
ghost use mathlib.Core.List.{flat_map, map};
ghost use Rattle.std.specs.Int.{w64};
ghost use Rattle.std.proofs.Common.{of_z};
ghost use Rattle.whole.specs.Sums.{All};
ghost use Rattle.plane.specs.Members.{Member, edges, member_edges, double_area};
ghost use Rattle.plane_rings.specs.Closed.{RingLimits};
ghost use Rattle.sheet_form.specs.Numbers.{Sheet, ring_numbers, part_numbers, member_numbers};
ghost use Rattle.sheet.specs.Held.{SheetHeld};
ghost use Rattle.sheet_turned.specs.Rings.{RingsFit};
ghost use Rattle.sheet_areas.specs.Standing.{Place, Sums};

use plane::OFFSET;

// The double area of what stands at a place, and the place behind it.
#[derive(Clone, Copy)]
pub struct Summed {
    pub area: i64,
    pub next: usize,
}

// The double area of the ring at a place.
fn ring(numbers: &[u32], at: usize) -> Summed
    requires { Place ring_numbers edges RingLimits numbers.now at }
    ensures { Sums ring_numbers edges RingLimits numbers.now at result }
{
    Summed {
        area: sheet_sums::sum(numbers, at),
        next: at + 1 + 2 * (numbers[at] - OFFSET) as usize,
    }
}

// The double area of the part at a place, that of all its rings.
fn part(numbers: &[u32], at: usize) -> Summed
    requires { Place part_numbers (flat_map edges) (All RingLimits) numbers.now at }
    ensures { Sums part_numbers (flat_map edges) (All RingLimits) numbers.now at result }
{
    let mut sum = Summed {
        area: 0,
        next: at + 1,
    };
    for _ in 0..numbers[at] - OFFSET {
        let one = ring(numbers, sum.next);
        sum = Summed {
            area: sum.area + one.area,
            next: one.next,
        };
    }
    sum
}

// The double area of the polygon at a place, that of all its parts.
fn polygon(numbers: &[u32], at: usize) -> Summed
    requires { Place member_numbers member_edges (All (All RingLimits)) numbers.now at }
    ensures { Sums member_numbers member_edges (All (All RingLimits)) numbers.now at result }
{
    let mut sum = Summed {
        area: 0,
        next: at + 1,
    };
    for _ in 0..numbers[at] - OFFSET {
        let one = part(numbers, sum.next);
        sum = Summed {
            area: sum.area + one.area,
            next: one.next,
        };
    }
    sum
}

// The double area of each polygon of the sheet at the front of the numbers, as the bits of an i64.
pub fn areas(numbers: &[u32], areas: &mut [u64])
    requires { (limit : ℕ) × (n : Sheet) × (size : ℕ) × SheetHeld limit n (take size numbers.now) × RingsFit n × (length n.polygons ≡ length areas.old) }
    ensures { (limit : ℕ) (n : Sheet) (size : ℕ) → SheetHeld limit n (take size numbers.now) → RingsFit n → length n.polygons ≡ length areas.old
        → areas.new ≡ map (λ (m : Member). of_z w64 (double_area m)) n.polygons }
{
    let mut here = 2 + 6 * (numbers[0] - OFFSET) as usize;
    for area in areas.iter_mut() {
        let one = polygon(numbers, here);
        *area = one.area.cast_unsigned();
        here = one.next;
    }
}
