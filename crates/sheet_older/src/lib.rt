// A sheet of the older edition: turns the rings of a sheet in numbers where they stand.
#![tactic(auto)]

ghost use Rattle.std.specs.Prelude.{◌≡◌, cond, reverse, ℕ, ◌+◌, ◌<◌, pos, length};
ghost use Rattle.std.specs.Int.Signed.{lt_z};
ghost use Rattle.whole.specs.Sums.{All};
ghost use Rattle.plane_rings.specs.Closed.{RingLimits};
ghost use Rattle.plane_rings.specs.Turning.{turn_polygon, turn_member};
ghost use Rattle.sheet_form.specs.Numbers.{Sheet, ring_numbers, part_numbers, member_numbers};
ghost use Rattle.sheet.specs.Held.{SheetHeld};
ghost use Rattle.sheet_turned.specs.Rings.{RingsFit};
ghost use Rattle.sheet_turned.specs.Turned.{turned};
ghost use Rattle.sheet_older.specs.Standing.{Place, Turns, turn_ring};

use plane::OFFSET;

// Turns the ring at a place round: its points in reverse order. The place behind it.
fn turn_round(numbers: &mut [u32], at: usize) -> usize
    requires { Place ring_numbers RingLimits numbers.old at }
    ensures { Turns ring_numbers reverse RingLimits numbers.old at numbers.new result }
{
    let points = (numbers[at] - OFFSET) as usize;
    let next = at + 1 + 2 * points;
    for k in 0..points / 2 {
        let i = at + 1 + 2 * k;
        let j = next - 2 - 2 * k;
        numbers.swap(i, j);
        numbers.swap(i + 1, j + 1);
    }
    next
}

// A ring of this double area goes the wrong way: a first ring if it is negative, a later one if positive.
fn wrong_way(area: i64, first: bool) -> bool
    ensures { result ≡ cond first (lt_z area (pos 0)) (lt_z (pos 0) area) }
{
    if first {
        return area < 0;
    }
    0 < area
}

// Turns the ring at a place round if it goes the wrong way. The place behind it.
fn ring(numbers: &mut [u32], at: usize, first: bool) -> usize
    requires { Place ring_numbers RingLimits numbers.old at }
    ensures { Turns ring_numbers (turn_ring first) RingLimits numbers.old at numbers.new result }
{
    let area = sheet_sums::sum(numbers, at);
    if wrong_way(area, first) {
        return turn_round(numbers, at);
    }
    at + 1 + 2 * (numbers[at] - OFFSET) as usize
}

// Turns the rings of the part at a place, the first one and every later one. The place behind it.
fn part(numbers: &mut [u32], at: usize) -> usize
    requires { Place part_numbers (All RingLimits) numbers.old at }
    ensures { Turns part_numbers turn_polygon (All RingLimits) numbers.old at numbers.new result }
{
    let mut here = at + 1;
    for i in 0..numbers[at] - OFFSET {
        here = ring(numbers, here, i == 0);
    }
    here
}

// Turns the rings of the polygon at a place, those of each of its parts. The place behind it.
fn polygon(numbers: &mut [u32], at: usize) -> usize
    requires { Place member_numbers (All (All RingLimits)) numbers.old at }
    ensures { Turns member_numbers turn_member (All (All RingLimits)) numbers.old at numbers.new result }
{
    let mut here = at + 1;
    for _ in 0..numbers[at] - OFFSET {
        here = part(numbers, here);
    }
    here
}

// Turns the rings of a sheet in numbers, those of each of its polygons. Table pieces stay.
pub fn turn(numbers: &mut [u32])
    requires { (limit : ℕ) × (n : Sheet) × SheetHeld limit n numbers.old × RingsFit n }
    ensures { ((limit : ℕ) (n : Sheet) → SheetHeld limit n numbers.old → RingsFit n → SheetHeld limit (turned n) numbers.new)
        × (length numbers.new ≡ length numbers.old) }
{
    let at = 1 + 6 * (numbers[0] - OFFSET) as usize;
    let mut here = at + 1;
    for _ in 0..numbers[at] - OFFSET {
        here = polygon(numbers, here);
    }
}
