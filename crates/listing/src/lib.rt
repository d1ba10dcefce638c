// The printed listing of a sheet, put together in lent text.
#![tactic(auto)]

ghost use Rattle.std.specs.Prelude.{◌≡◌, List, ℕ, ◌≤◌, length};
ghost use Rattle.judged.specs.Judged.{Judged, judged_sheet};
ghost use Rattle.judged.specs.Held.{JudgedHeld};
ghost use Rattle.lent_text.specs.Putting.{Put};
ghost use Rattle.listing.specs.Listing.{listing_of, listing};
ghost use Rattle.listing.specs.Held.{AreasOf};

use plane::OFFSET;

// The double area of each triangle of a judged sheet.
fn lay_areas(numbers: &[u32], areas: &mut [u64])
    requires { (j : Judged) × (opposite : List ℕ) × (sets : List ℕ) × JudgedHeld j numbers.now opposite sets × (length sets ≡ length areas.old) }
    ensures { (j : Judged) (opposite sets : List ℕ) → JudgedHeld j numbers.now opposite sets → length sets ≡ length areas.old → AreasOf j.sheet areas.new }
{
    let n = areas.len();
    let mut keys = [0u64; 3072];
    sheet_edges::corners(&numbers[..1 + 6 * n], &mut keys[..3 * n]);
    listing_figures::areas(&keys[..3 * n], areas);
}

// The listing of a judged sheet, repaired in a way.
fn put_judged(way: u32, numbers: &[u32], opposite: &[usize], sets: &[u64], text: &mut [u8]) -> usize
    requires { ((j : Judged) × JudgedHeld j numbers.now opposite.now sets.now) × (6600 ≤ length text.old) }
    ensures { (result ≤ 6600) × ((j : Judged) → JudgedHeld j numbers.now opposite.now sets.now → Put 0 (listing_of way j) text.old result text.new) }
{
    let n = sets.len();
    let polygons = (numbers[1 + 6 * n] - OFFSET) as usize;
    let mut doubles = [0u64; 64];
    let mut areas = [0u64; 1024];
    let mut owners = [0u8; 1024];
    sheet_areas::areas(numbers, &mut doubles[..polygons]);
    lay_areas(numbers, &mut areas[..n]);
    let done = repair::repair(way, numbers, opposite, sets, &mut owners[..n]);
    listing_lines::put_repaired(
        text,
        done,
        &doubles[..polygons],
        sets,
        &owners[..n],
        &areas[..n],
    )
}

// The listing of a sheet that is read in a mode and repaired in a way, put at the front of the lent text; what stands behind it keeps its value.
pub fn print(sheet: &[u8], mode: u32, way: u32, text: &mut [u8]) -> usize
    requires { 6600 ≤ length text.old }
    ensures { (result ≤ 6600) × Put 0 (listing way (judged_sheet mode sheet.now)) text.old result text.new }
{
    let mut numbers = [0u32; 16450];
    let mut opposite = [0usize; 3072];
    let mut sets = [0u64; 1024];
    match judged::judged(sheet, mode, &mut numbers, &mut opposite, &mut sets) {
        Err(refusal) => lent_text::put_line(
            text,
            0,
            b"refused",
            refusal.reason.code() as u64,
            refusal.item as u64,
        ),
        Ok(n) => put_judged(way, &numbers, &opposite[..3 * n], &sets[..n], text),
    }
}
