// The road of the entries that judge, by what is asked: the exported entries only fill it in. Each answers its item, or a refusal.
#![tactic(auto)]

ghost use Rattle.std.specs.Prelude.{◌≡◌, List, [], ℕ, ◌/◌, ◌≤◌, min, length};
ghost use Rattle.lent.specs.Answered.{Answered, answer_of};
ghost use Rattle.lent.specs.Told.{number_of};
ghost use Rattle.judged.specs.Judged.{Judged};
ghost use Rattle.judged.specs.Held.{JudgedHeld, Rooms};
ghost use Rattle.outcomes.specs.declared.Wanted.TheVariants.{Boundary, Rings, RingRoom};
ghost use Rattle.outcomes.specs.Entries.{on_sheet, goes_on, answer_to};

use lent::{Reason, Refusal};
use outcomes::{Asked, Wanted};
use plane::OFFSET;

// The polygon is on a judged sheet of so many triangles.
fn on_sheet(polygon: u32, numbers: &[u32], triangles: usize) -> bool
    requires { (j : Judged) × (opposite : List ℕ) × (sets : List ℕ) × JudgedHeld j numbers.now opposite sets × (length sets ≡ triangles) }
    ensures { (j : Judged) (opposite sets : List ℕ) → JudgedHeld j numbers.now opposite sets → length sets ≡ triangles → result ≡ on_sheet polygon j.sheet }
{
    if polygon == 0 {
        return false;
    }
    polygon <= numbers[1 + 6 * triangles] - OFFSET
}

// The boundary sides of a polygon of a judged sheet after repair in a way; 41 where it isn't on the sheet.
fn boundary(
    way: u32,
    polygon: u32,
    numbers: &[u32],
    opposite: &[usize],
    sets: &[u64],
    out: &mut [u8],
) -> Result<u32, Refusal>
    requires { (j : Judged) × JudgedHeld j numbers.now opposite.now sets.now }
    ensures { (j : Judged) → JudgedHeld j numbers.now opposite.now sets.now → Answered (goes_on way (Boundary polygon) j) out.old (number_of result) out.new }
{
    if !on_sheet(polygon, numbers, sets.len()) {
        return Err(Refusal {
            reason: Reason::OffSheet,
            item: 0,
        });
    }
    repair_side_bytes::boundary(way, numbers, opposite, sets, polygon as u8, out)
}

// The same sides joined into closed rings.
fn rings(
    way: u32,
    polygon: u32,
    numbers: &[u32],
    opposite: &[usize],
    sets: &[u64],
    out: &mut [u8],
) -> Result<u32, Refusal>
    requires { (j : Judged) × JudgedHeld j numbers.now opposite.now sets.now }
    ensures { (j : Judged) → JudgedHeld j numbers.now opposite.now sets.now → Answered (goes_on way (Rings polygon) j) out.old (number_of result) out.new }
{
    if !on_sheet(polygon, numbers, sets.len()) {
        return Err(Refusal {
            reason: Reason::OffSheet,
            item: 0,
        });
    }
    sheet_ring_bytes::rings(way, numbers, opposite, sets, polygon as u8, out)
}

// The room that these take, as the item.
fn ring_room(
    way: u32,
    polygon: u32,
    numbers: &[u32],
    opposite: &[usize],
    sets: &[u64],
) -> Result<u32, Refusal>
    requires { (j : Judged) × JudgedHeld j numbers.now opposite.now sets.now }
    ensures { (j : Judged) → JudgedHeld j numbers.now opposite.now sets.now → number_of result ≡ answer_of (goes_on way (RingRoom polygon) j) [] }
{
    if !on_sheet(polygon, numbers, sets.len()) {
        return Err(Refusal {
            reason: Reason::OffSheet,
            item: 0,
        });
    }
    sheet_ring_bytes::ring_room(way, numbers, opposite, sets, polygon as u8)
}

// What a judged sheet goes on to, by what is wanted, repaired in a way.
fn go_on(
    way: u32,
    wanted: Wanted,
    numbers: &[u32],
    opposite: &[usize],
    sets: &[u64],
    out: &mut [u8],
) -> Result<u32, Refusal>
    requires { (j : Judged) × JudgedHeld j numbers.now opposite.now sets.now }
    ensures { (j : Judged) → JudgedHeld j numbers.now opposite.now sets.now → Answered (goes_on way wanted j) out.old (number_of result) out.new }
{
    match wanted {
        Wanted::OwnerSets => lent_sets::each(sets, out),
        Wanted::Owners => repair_owner_bytes::owners(way, numbers, opposite, sets, out),
        Wanted::Boundary(polygon) => boundary(way, polygon, numbers, opposite, sets, out),
        Wanted::Rings(polygon) => rings(way, polygon, numbers, opposite, sets, out),
        Wanted::RingRoom(polygon) => ring_room(way, polygon, numbers, opposite, sets),
        Wanted::At(x, y) => repair_point::owner_at(way, numbers, opposite, sets, x, y),
    }
}

// The road of the entries that judge, over lists that have room for what the bytes come to: a judged sheet, which goes on to what is wanted.
fn answer_in(
    asked: Asked,
    sheet: &[u8],
    index: &[u8],
    numbers: &mut [u32],
    opposite: &mut [usize],
    sets: &mut [u64],
    out: &mut [u8],
) -> Result<u32, Refusal>
    requires { Rooms sheet.now numbers.old opposite.old sets.old }
    ensures { Answered (answer_to asked index.now sheet.now) out.old (number_of result) out.new }
{
    let n = judged::judged_with(
        sheet,
        asked.mode,
        asked.indexed,
        index,
        numbers,
        opposite,
        sets,
    )?;
    go_on(
        asked.way,
        asked.wanted,
        numbers,
        &opposite[..3 * n],
        &sets[..n],
        out,
    )
}

// The same in lists of these lengths, which are enough for the bytes.
fn answer_with<const NUMBERS: usize, const SIDES: usize, const TRIANGLES: usize>(
    asked: Asked,
    sheet: &[u8],
    index: &[u8],
    out: &mut [u8],
) -> Result<u32, Refusal>
    requires { (min 16450 (length sheet.now / 4) ≤ NUMBERS) × (min 3072 (length sheet.now / 8) ≤ SIDES) × (min 1024 (length sheet.now / 24) ≤ TRIANGLES)
        × (NUMBERS ≤ 16450) × (SIDES ≤ 3072) × (TRIANGLES ≤ 1024) }
    ensures { Answered (answer_to asked index.now sheet.now) out.old (number_of result) out.new }
{
    let mut numbers = [0u32; NUMBERS];
    let mut opposite = [0usize; SIDES];
    let mut sets = [0u64; TRIANGLES];
    answer_in(
        asked,
        sheet,
        index,
        &mut numbers,
        &mut opposite,
        &mut sets,
        out,
    )
}

// The road of the entries that judge: the bytes come to a judged sheet, which goes on to what is wanted. No list is longer than the bytes ask.
pub fn answer(asked: Asked, sheet: &[u8], index: &[u8], out: &mut [u8]) -> Result<u32, Refusal>
    ensures { Answered (answer_to asked index.now sheet.now) out.old (number_of result) out.new }
{
    if sheet.len() <= 8192 {
        return answer_with::<2048, 1024, 342>(asked, sheet, index, out);
    }
    answer_with::<16450, 3072, 1024>(asked, sheet, index, out)
}
