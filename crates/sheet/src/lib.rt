// A sheet in numbers, read from bytes by steps. Each number is held as itself plus 10,000,000.
#![tactic(auto)]

ghost use Rattle.std.specs.Prelude.{◌≡◌, IfSome, IfNone, cond, List, ℕ, ◌+◌, ◌≤◌, ◌<◌, ◌^◌, ltb, set};
ghost use Rattle.plane.specs.Corners.{offset};
ghost use Rattle.sheet.specs.Reading;
ghost use Rattle.sheet.specs.Reading.{Taken, reading_of};
ghost use Rattle.sheet_coordinate.specs.Coordinate.{coordinate_of};
ghost use Rattle.wkb.specs.declared.Step.TheVariants.{Point};
ghost use Rattle.sheet.specs.Going.{laid, fault_of, Shows, Turned, Within, Ready, Leads, Follows, ReadAs};
ghost use Rattle.sheet.specs.Behind.{closed, behind_all, Begins, Row, To, Past};
ghost use Rattle.sheet.specs.Rings.{Reaches};

use lent::{Fault, Reason, Refusal};
use lent_fields::{double, remain, word};
use plane::OFFSET;
use sheet_coordinate::judge;
use wkb::{Cursor, Step};
use wkb_kinds::{Kind, Slot};

// What was read so far, beside the numbers themselves: how many there are, where the number of the open member's polygons stands among
// them, whether the open ring's first point is still to come, and that point. The last three stay apart, as in the definitions' Taken: at the
// beginning no point is to come, so that an Option would have to begin with a point that no ring has.
#[derive(Clone, Copy)]
pub struct Build {
    pub fill: usize,
    pub mark: usize,
    pub first: bool,
    pub x: u32,
    pub y: u32,
}

// A place that was reached, and what was read up to it.
#[derive(Clone, Copy)]
pub struct Reached {
    pub place: Cursor,
    pub build: Build,
}

// The fault with this reason and item, at the field that begins at a byte.
fn fault(reason: Reason, item: u32, position: usize) -> Fault
    ensures { result ≡ fault_of reason item position }
{
    Fault {
        refusal: Refusal { reason, item },
        position,
    }
}

// Stores a number where there is room for it.
fn put(numbers: &mut [u32], at: usize, v: u32)
    ensures { numbers.new ≡ set numbers.old at v }
{
    if at < numbers.len() {
        numbers[at] = v;
    }
}

// One number more.
fn push(mut b: Build, v: u32, numbers: &mut [u32]) -> Build
    requires { b.fill + 1 < 2 ^ 64 }
    ensures { (result.fill ≡ b.fill + 1) × ((t : Taken) (out : List ℕ) → Shows out t b numbers.old → Shows out (Reading.push v t) result numbers.new) }
{
    put(numbers, b.fill, v);
    b.fill += 1;
    b
}

// A member begins.
fn begin(mut b: Build, numbers: &mut [u32]) -> Build
    requires { b.fill + 1 < 2 ^ 64 }
    ensures { (result.fill ≡ b.fill + 1) × ((t : Taken) (out : List ℕ) → Shows out t b numbers.old → Shows out (Reading.begin t) result numbers.new) }
{
    b.mark = b.fill;
    push(b, OFFSET, numbers)
}

// The number of the open member's polygons so far, stored where it stands.
fn tally(b: Build, n: u32, numbers: &mut [u32])
    requires { n ≤ 64 }
    ensures { (t : Taken) (out : List ℕ) → Shows out t b numbers.old → Shows out (Reading.tally n t) b numbers.new }
{
    if b.mark < b.fill {
        put(numbers, b.mark, n + OFFSET);
    }
}

// A polygon of the member is opened; next is the place after its header.
fn polygon(next: Cursor, n: u32, b: Build, numbers: &mut [u32]) -> Build
    requires { (n ≤ offset) × (next.polygons ≤ 64) × (b.fill + 1 < 2 ^ 64) }
    ensures { (result.fill ≡ b.fill + 1) × ((t : Taken) (out : List ℕ) → Shows out t b numbers.old → Shows out (Reading.polygon next n t) result numbers.new) }
{
    tally(b, next.polygons, numbers);
    push(b, n + OFFSET, numbers)
}

// What a geometry adds that was opened at c, next being the next place.
#[tactic(auto, unfolding(crate::specs::Reading::opening))]
fn opening(
    slot: Slot,
    c: Cursor,
    next: Cursor,
    kind: u32,
    n: u32,
    b: Build,
    numbers: &mut [u32],
) -> Build
    requires { (n ≤ offset) × (next.polygons ≤ 64) × (b.fill + 3 < 2 ^ 64) }
    ensures { (result.fill ≤ b.fill + 3) × ((t : Taken) (out : List ℕ) → Shows out t b numbers.old → Shows out (Reading.opening slot c next kind n t) result numbers.new) }
{
    match slot {
        Slot::Sheet => b,
        Slot::Table => push(b, n + OFFSET, numbers),
        Slot::Piece => b,
        Slot::Part => polygon(next, n, b, numbers),
        Slot::Member => member(c.header, kind == Kind::POLYGON, next, n, b, numbers),
    }
}

// What a member's geometry adds: the member may begin with it, and it may be a polygon.
fn member(begins: bool, simple: bool, next: Cursor, n: u32, b: Build, numbers: &mut [u32]) -> Build
    requires { (n ≤ offset) × (next.polygons ≤ 64) × (b.fill + 3 < 2 ^ 64) }
    ensures { (result.fill ≤ b.fill + 3) × ((t : Taken) (out : List ℕ) → Shows out t b numbers.old → Shows out (cond simple (Reading.polygon next n (cond begins (Reading.begin t) t)) (cond begins (Reading.begin t) t)) result numbers.new) }
{
    let begun = if begins { begin(b, numbers) } else { b };
    if simple {
        polygon(next, n, begun, numbers)
    } else {
        begun
    }
}

// What a ring's count adds.
#[tactic(auto, unfolding(crate::specs::Reading::ringing))]
fn ringing(c: Cursor, n: u32, b: Build, numbers: &mut [u32]) -> Build
    requires { (n ≤ 4096) × (b.fill + 3 < 2 ^ 64) }
    ensures { (result.fill ≤ b.fill + 3) × ((t : Taken) (out : List ℕ) → Shows out t b numbers.old → Shows out (Reading.ringing c n t) result numbers.new) }
{
    let mut more = if c.member == 1 {
        b
    } else {
        push(b, n + OFFSET, numbers)
    };
    more.first = true;
    more
}

// The point, remembered if it is the ring's first.
fn noted(mut b: Build, x: u32, y: u32) -> Build
    ensures { (result.fill ≡ b.fill) × ((t : Taken) (out numbers : List ℕ) → Shows out t b numbers → Shows out (Reading.noted x y t) result numbers) }
{
    if b.first {
        b.x = x;
        b.y = y;
    }
    b.first = false;
    b
}

// Two numbers more.
fn push_both(b: Build, x: u32, y: u32, numbers: &mut [u32]) -> Build
    requires { b.fill + 2 < 2 ^ 64 }
    ensures { (result.fill ≡ b.fill + 2) × ((t : Taken) (out : List ℕ) → Shows out t b numbers.old → Shows out (Reading.push y (Reading.push x t)) result numbers.new) }
{
    push(push(b, x, numbers), y, numbers)
}

// What a point adds.
fn pointing(c: Cursor, x: u32, y: u32, b: Build, numbers: &mut [u32]) -> Build
    requires { (c.members ≤ offset) × (b.fill + 3 < 2 ^ 64) }
    ensures { (result.fill ≤ b.fill + 3) × ((t : Taken) (out : List ℕ) → Shows out t b numbers.old → Shows out (Reading.pointing c x y t) result numbers.new) }
{
    let more = noted(b, x, y);
    if c.member != 1 || c.points != 1 {
        return push_both(more, x, y, numbers);
    }
    if c.parts != 0 || c.rings != 0 {
        return more;
    }
    push(more, c.members + OFFSET, numbers)
}

// The point is the ring's last and differs from its first.
fn differs(c: Cursor, x: u32, y: u32, b: Build) -> bool
    ensures { (t : Taken) (out numbers : List ℕ) → Shows out t b numbers → result ≡ Reading.differs c x y t }
{
    if c.points != 1 {
        return false;
    }
    let begun = noted(b, x, y);
    x != begun.x || y != begun.y
}

// A point is judged as it comes: 5 at the first double that is not a coordinate, then 6 where the ring's last point differs from its first.
fn judged(
    c: Cursor,
    next: Cursor,
    b: Build,
    x: f64,
    y: f64,
    numbers: &mut [u32],
) -> Result<Reached, Fault>
    requires { (c.members ≤ offset) × (c.at + 8 < 2 ^ 64) × (b.fill + 3 < 2 ^ 64) }
    ensures { Leads (Point x y next) b result × ((t : Taken) (out : List ℕ) → Shows out t b numbers.old → Turned out (Reading.judged c next t (coordinate_of x) (coordinate_of y)) result numbers.new) }
{
    let Some(h) = judge(x) else {
        return Err(fault(Reason::Coordinate, c.member, c.at));
    };
    let Some(k) = judge(y) else {
        return Err(fault(Reason::Coordinate, c.member, c.at + 8));
    };
    if differs(c, h, k, b) {
        return Err(fault(Reason::Unclosed, c.member, c.at));
    }
    Ok(Reached {
        place: next,
        build: pointing(c, h, k, b, numbers),
    })
}

// What the answer of a step at c adds, which is no end.
#[tactic(auto, unfolding(crate::specs::Reading::taken, wkb::specs::Steps::slot_of))]
fn taken(c: Cursor, b: Build, a: Step, numbers: &mut [u32]) -> Result<Reached, Fault>
    requires { Ready c b a }
    ensures { Leads a b result × ((t : Taken) (out : List ℕ) → Shows out t b numbers.old → Turned out (Reading.taken c t a) result numbers.new) }
{
    match a {
        Step::Geometry(kind, n, next) => {
            let slot = Slot::standing(c.member, c.parts);
            Ok(Reached {
                place: next,
                build: opening(slot, c, next, kind, n, b, numbers),
            })
        }
        Step::Ring(n, next) => Ok(Reached {
            place: next,
            build: ringing(c, n, b, numbers),
        }),
        Step::Point(x, y, next) => judged(c, next, b, x, y, numbers),
        Step::End(_) => unreachable!(),
        Step::Refused(reason, item, field, _) => Err(fault(reason, item, field)),
    }
}

// A ring or a point of the open polygon is to come.
fn is_open(c: Cursor) -> bool
    ensures { result ≡ ltb 0 (c.rings + c.points) }
{
    0 < c.rings || 0 < c.points
}

// A ring's count, where one is to come; nothing where it is at fault.
fn count(s: &[u8], c: Cursor, b: Build, numbers: &mut [u32]) -> Reached
    requires { Within s.now c b × (0 < c.rings + c.points) }
    ensures { Reaches s.now c b numbers.old result numbers.new × (0 < result.place.rings + result.place.points) }
{
    let here = Reached { place: c, build: b };
    if 0 < c.points || !remain(s, c.at, 4) {
        return here;
    }
    let n = word(s, c.at, c.little);
    if !c.ring_fits(n) {
        return here;
    }
    Reached {
        place: c.with_points(n),
        build: ringing(c, n, b, numbers),
    }
}

// A point; none where it is at fault.
fn point(s: &[u8], c: Cursor, b: Build, numbers: &mut [u32]) -> Option<Reached>
    requires { Within s.now c b × (0 < c.points) }
    ensures further { IfSome result (λ q. Reaches s.now c b numbers.old q numbers.new × (c.at < q.place.at)) }
    ensures fault { IfNone result (numbers.new ≡ numbers.old) }
{
    if !remain(s, c.at, 16) {
        return None;
    }
    let x = judge(double(s, c.at, c.little))?;
    let y = judge(double(s, c.at + 8, c.little))?;
    if differs(c, x, y, b) {
        return None;
    }
    Some(Reached {
        place: c.after_point(),
        build: pointing(c, x, y, b, numbers),
    })
}

// The points of the open ring, up to one that is at fault. A while: the place says how many are to come.
fn points(s: &[u8], from: Cursor, had: Build, numbers: &mut [u32]) -> Reached
    requires { Within s.now from had × (0 < from.rings + from.points) }
    ensures { Reaches s.now from had numbers.old result numbers.new }
{
    let mut reached = Reached {
        place: from,
        build: had,
    };
    while 0 < reached.place.points {
        let Some(next) = point(s, reached.place, reached.build, numbers) else {
            break;
        };
        reached = next;
    }
    reached
}

// A ring's count and its points, or what is left of the open ring, up to a fault. It is what as many steps come to, without handing each place on.
fn ring(s: &[u8], c: Cursor, b: Build, numbers: &mut [u32]) -> Reached
    requires { Within s.now c b × (0 < c.rings + c.points) }
    ensures { Reaches s.now c b numbers.old result numbers.new }
{
    let counted = count(s, c, b, numbers);
    points(s, counted.place, counted.build, numbers)
}

// The rings and points of an open polygon, all of them: ring by ring, and by a step where a field is at fault. A while: the place says what is
// to come.
fn rings(s: &[u8], from: Cursor, had: Build, numbers: &mut [u32]) -> Result<Reached, Fault>
    requires { Within s.now from had × (0 < from.rings) }
    ensures { Follows s.now from had numbers.old from.at result numbers.new × To (closed from) result }
{
    let mut reached = Reached {
        place: from,
        build: had,
    };
    while is_open(reached.place) {
        reached = ring(s, reached.place, reached.build, numbers);
        if !is_open(reached.place) {
            break;
        }
        let told = reached.place.step(s);
        reached = taken(reached.place, reached.build, told.step, numbers)?;
    }
    Ok(reached)
}

// A geometry, whole: its header, then its rings or the geometries that it holds, which are so many levels deep at most.
#[cycle(collection_geometry)]
fn geometry(
    s: &[u8],
    c: Cursor,
    b: Build,
    depth: u32,
    numbers: &mut [u32],
) -> Result<Reached, Fault>
    requires { Within s.now c b × Begins depth c }
    ensures { Follows s.now c b numbers.old (c.at + 1) result numbers.new × Past c result }
{
    let told = c.step(s);
    let opened = taken(c, b, told.step, numbers)?;
    // where a geometry stands, no other answer goes on
    let Step::Geometry(_, n, _) = told.step else {
        return Ok(opened);
    };
    if 0 < opened.place.rings {
        return rings(s, opened.place, opened.build, numbers);
    }
    collection(s, opened.place, opened.build, n, depth - 1, numbers)
}

// The n geometries that the sheet, a collection, a MultiPolygon or the table holds, all of them.
#[cycle(collection_geometry)]
fn collection(
    s: &[u8],
    from: Cursor,
    had: Build,
    n: u32,
    depth: u32,
    numbers: &mut [u32],
) -> Result<Reached, Fault>
    requires { Within s.now from had × Row n depth from }
    ensures { Follows s.now from had numbers.old from.at result numbers.new × To (behind_all n from) result }
{
    let mut reached = Reached {
        place: from,
        build: had,
    };
    for _ in 0..n {
        reached = geometry(s, reached.place, reached.build, depth, numbers)?;
    }
    Ok(reached)
}

// Reads a sheet into lent numbers: its numbers form, each number plus 10,000,000, as far as there is room. The sheet is one geometry, with
// collections 4 deep and a MultiPolygon in them; behind it comes the end, or bytes that are too many. It may have `limit` members, which can be
// held. What is answered is how many numbers the sheet has, or the fault.
pub fn read(s: &[u8], limit: u32, numbers: &mut [u32]) -> Result<usize, Fault>
    requires { limit ≤ offset }
    ensures { ReadAs (reading_of limit s.now) result × (numbers.new ≡ laid (reading_of limit s.now).numbers numbers.old) }
{
    let b = Build {
        fill: 0,
        mark: 0,
        first: false,
        x: 0,
        y: 0,
    };
    let whole = geometry(s, Cursor::start(limit), b, 5, numbers)?;
    let told = whole.place.step(s);
    let Step::End(_) = told.step else {
        return Err(fault(Reason::Behind, 0, told.began));
    };
    Ok(whole.build.fill)
}
