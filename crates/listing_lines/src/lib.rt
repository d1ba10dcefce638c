// The lines of the listing by the figures of the sheet, put together in lent text.
#![tactic(auto)]

ghost use Rattle.std.specs.Prelude.{◌≡◌, map, ◌+◌, ◌*◌, ◌≤◌, pos, length};
ghost use Rattle.lent_text.specs.Putting.{Put};
ghost use Rattle.repair_regions.specs.Regions.{from};
ghost use Rattle.listing_lines.specs.Lines.{numbered};
ghost use Rattle.listing_lines.specs.Printing.{Figures, owned_by, head_by, after_by, lines_by, told};

use lent::Refusal;
use listing_figures::Figure;

// A line for each polygon: the word, its number, and its double area.
fn put_polygons(text: &mut [u8], at: usize, word: &[u8], doubles: &[u64]) -> usize
    requires { (length doubles.now ≤ 64) × (length word.now ≤ 7) × (at + 50 * length doubles.now ≤ length text.old) }
    ensures { (result ≤ at + 50 * length doubles.now)
        × Put at (numbered word.now 1 (map pos doubles.now)) text.old result text.new }
{
    let mut here = at;
    for (k, double) in doubles.iter().enumerate() {
        here = lent_text::put_line(text, here, word, k as u64 + 1, *double);
    }
    here
}

// The double area of what each polygon owns after repair.
fn lay_after(sets: &[u64], owners: &[u8], areas: &[u64], doubles: &mut [u64])
    requires { Figures sets.now owners.now areas.now × (length doubles.old ≤ 64) }
    ensures { doubles.new ≡ map (owned_by sets.now owners.now areas.now) (from 1 (length doubles.old)) }
{
    for (k, double) in doubles.iter_mut().enumerate() {
        let figure = listing_figures::tally(Figure::After(k as u32 + 1), sets, owners, areas);
        *double = figure.area;
    }
}

// The lines up to the verdict.
fn put_head(text: &mut [u8], doubles: &[u64], sets: &[u64], owners: &[u8], areas: &[u64]) -> usize
    requires { Figures sets.now owners.now areas.now × (length doubles.now ≤ 64) × (3400 ≤ length text.old) }
    ensures { (result ≤ 3400) × Put 0 (head_by doubles.now sets.now owners.now areas.now) text.old result text.new }
{
    let n = areas.len();
    let first = lent_text::put_line(text, 0, b"sheet", n as u64, doubles.len() as u64);
    let lines = put_polygons(text, first, b"polygon", doubles);
    let gaps = listing_figures::tally(Figure::Gaps, sets, owners, areas);
    let gap = lent_text::put_line(text, lines, b"gap", gaps.triangles as u64, gaps.area);
    let overlaps = listing_figures::tally(Figure::Overlaps, sets, owners, areas);
    let overlap = lent_text::put_line(
        text,
        gap,
        b"overlap",
        overlaps.triangles as u64,
        overlaps.area,
    );
    if gaps.triangles + overlaps.triangles == 0 {
        return lent_text::put_word(text, overlap, b"verdict clean\n");
    }
    lent_text::put_word(text, overlap, b"verdict repair\n")
}

// The lines behind the verdict: what each polygon owns after repair, or the code and the item of the refusal of repair.
fn put_after(
    text: &mut [u8],
    at: usize,
    done: Result<(), (u32, u32)>,
    polygons: usize,
    sets: &[u64],
    owners: &[u8],
    areas: &[u64],
) -> usize
    requires { Figures sets.now owners.now areas.now × (polygons ≤ 64) × (at + 3200 ≤ length text.old) }
    ensures { (result ≤ at + 3200) × Put at (after_by done polygons sets.now owners.now areas.now) text.old result text.new }
{
    match done {
        Ok(()) => {
            let mut after = [0u64; 64];
            lay_after(sets, owners, areas, &mut after[..polygons]);
            put_polygons(text, at, b"after", &after[..polygons])
        }
        Err((code, item)) => lent_text::put_line(text, at, b"refused", code as u64, item as u64),
    }
}

// The lines of a judged sheet, at the front of the text, with the double area of each of its polygons.
pub fn put_lines(
    text: &mut [u8],
    done: Result<(), (u32, u32)>,
    doubles: &[u64],
    sets: &[u64],
    owners: &[u8],
    areas: &[u64],
) -> usize
    requires { Figures sets.now owners.now areas.now × (length doubles.now ≤ 64) × (6600 ≤ length text.old) }
    ensures { (result ≤ 6600) × Put 0 (lines_by done doubles.now sets.now owners.now areas.now) text.old result text.new }
{
    let at = put_head(text, doubles, sets, owners, areas);
    put_after(text, at, done, doubles.len(), sets, owners, areas)
}

// The same by what repair came to.
pub fn put_repaired(
    text: &mut [u8],
    done: Result<(), Refusal>,
    doubles: &[u64],
    sets: &[u64],
    owners: &[u8],
    areas: &[u64],
) -> usize
    requires { Figures sets.now owners.now areas.now × (length doubles.now ≤ 64) × (6600 ≤ length text.old) }
    ensures { (result ≤ 6600) × Put 0 (lines_by (told done) doubles.now sets.now owners.now areas.now) text.old result text.new }
{
    let told = done.map_err(|refusal| (refusal.reason.code(), refusal.item));
    put_lines(text, told, doubles, sets, owners, areas)
}
