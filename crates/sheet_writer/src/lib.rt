// The writer: walks over the numbers form twice, first with a byte of its own to see that all of it is right and how long it is, then over the lent bytes.
#![tactic(auto)]

ghost use Rattle.std.specs.Prelude.{◌≡◌, true, ◌+◌, ◌*◌, ◌≤◌, ◌<◌, pos, length, drop, IfErr};
ghost use Rattle.std.proofs.lemmas.List.Edits.{sets};
ghost use Rattle.std.specs.Int.{w32};
ghost use Rattle.std.proofs.Common.{to_z};
ghost use Rattle.lent_little.specs.Ordered.{word_at};
ghost use Rattle.wkb.specs.Standard.{header as header_of};
ghost use Rattle.sheet_written.specs.Fits.{in_range, from_to};
ghost use Rattle.sheet_form.specs.Form.{numbers_in};
ghost use Rattle.sheet_form.specs.Numbers.{members};
ghost use Rattle.sheet_written.specs.Normal.{pattern_of};
ghost use Rattle.sheet_writer.specs.Emit.{low, high, heading, closed, closes as closes_at, emit_point, emit_many, emit, emit_piece, followed, polygon_count, emit_table, emit_sheet};
ghost use Rattle.sheet_writer.specs.Walks.{beginning, headed, Fair, Went, Ended};
ghost use Rattle.sheet_written.specs.Given.{sheet_given, write_outcome};
ghost use Rattle.lent.specs.Answered.{Answered};
ghost use Rattle.lent.specs.Refusals.{code_of};
ghost use Rattle.lent.specs.Told.{number_of};

use lent::{Reason, Refusal};
use sheet_form::MEMBERS;
use wkb_kinds::Kind;

// Where a walk over the numbers stands: the next number, the next lent byte, and the points so far. Where something is wrong it comes to none.
#[derive(Clone, Copy)]
pub struct Walk {
    at: usize,
    to: usize,
    points: usize,
}

// The bits of the number at a place.
fn bits(numbers: &[u8], i: usize) -> u32
    requires { 4 * i + 4 ≤ length numbers.now }
    ensures { result ≡ word_at true numbers.now (4 * i) }
{
    let at = 4 * i;
    u32::from_le_bytes([
        numbers[at],
        numbers[at + 1],
        numbers[at + 2],
        numbers[at + 3],
    ])
}

// The number of these bits is from -10,000,000 to 10,000,000.
fn in_range(b: u32) -> bool
    ensures { result ≡ in_range (to_z w32 b) }
{
    b.cast_signed().unsigned_abs() <= 10_000_000
}

// The pattern of the double that equals the number of these bits.
fn pattern(b: u32) -> u64
    ensures { result ≡ pattern_of (to_z w32 b) }
{
    lent_fields::pattern(i64::from(b.cast_signed()) as f64)
}

// Writes a geometry's header, little-endian.
fn header(out: &mut [u8], to: usize, kind: Kind, n: u32)
    requires { to ≤ 500000 }
    ensures { out.new ≡ sets out.old to (header_of true kind n) }
{
    wkb_header::put(out, to, kind.number(), n);
}

// A point in range.
fn point(numbers: &[u8], out: &mut [u8], w: Walk) -> Option<Walk>
    requires { Fair (numbers_in numbers.now) w }
    ensures { Went (emit_point (drop w.at (numbers_in numbers.now))) (numbers_in numbers.now) w out.old result out.new }
{
    if numbers.len() / 4 - w.at < 2 {
        return None;
    }
    let x = bits(numbers, w.at);
    let y = bits(numbers, w.at + 1);
    if !in_range(x) {
        return None;
    }
    if !in_range(y) {
        return None;
    }
    lent_little::put(out, w.to, pattern(x), 8);
    lent_little::put(out, w.to + 8, pattern(y), 8);
    Some(Walk {
        at: w.at + 2,
        to: w.to + 16,
        points: w.points + 1,
    })
}

// A count is within the limits of its level.
fn count_fits(level: u32, n: u32) -> bool
    ensures { result ≡ from_to (low level) (high level) n }
{
    if level == 1 {
        return 4 <= n && n <= 4096;
    }
    if level == 4 {
        return n <= 64;
    }
    1 <= n && n <= 64
}

// The n points at a place are there, and the last is the first.
fn ring_closes(numbers: &[u8], at: usize, n: u32) -> bool
    requires { (at ≤ length (numbers_in numbers.now)) × (4 ≤ n) × (n ≤ 4096) }
    ensures { result ≡ closed n (drop at (numbers_in numbers.now)) }
{
    let k = 2 * n as usize;
    if numbers.len() / 4 - at < k {
        return false;
    }
    if bits(numbers, at + k - 2) != bits(numbers, at) {
        return false;
    }
    bits(numbers, at + k - 1) == bits(numbers, at + 1)
}

// What is counted at a level closes: the n points of a ring; above a ring nothing is asked.
fn closes(numbers: &[u8], at: usize, level: u32, n: u32) -> bool
    requires { (at ≤ length (numbers_in numbers.now)) × (from_to (low level) (high level) n ≡ true) }
    ensures { result ≡ closes_at level n (drop at (numbers_in numbers.now)) }
{
    if level == 1 {
        return ring_closes(numbers, at, n);
    }
    true
}

// Writes what stands before the things of a level, and goes behind their count.
fn head(out: &mut [u8], w: Walk, level: u32, n: u32) -> Walk
    requires { (w.at ≤ 16450) × (w.to ≤ 400000) }
    ensures { (result ≡ headed w level n) × (out.new ≡ sets out.old w.to (heading level n)) }
{
    let mut to = w.to;
    if level == 1 {
        lent_little::put(out, to, n as u64, 4);
        to += 4;
    }
    if level == 2 {
        header(out, to, Kind::Polygon, n);
        to += 9;
    }
    if level == 3 && n != 1 {
        header(out, to, Kind::MultiPolygon, n);
        to += 9;
    }
    Walk {
        at: w.at + 1,
        to,
        points: w.points,
    }
}

// A thing of a level: a point, or a count within its limits and so many things of the level below.
#[cycle(thing_things)]
fn thing(numbers: &[u8], out: &mut [u8], w: Walk, level: u32) -> Option<Walk>
    requires { Fair (numbers_in numbers.now) w }
    ensures { Went (emit level (drop w.at (numbers_in numbers.now))) (numbers_in numbers.now) w out.old result out.new }
{
    if level == 0 {
        return point(numbers, out, w);
    }
    if numbers.len() / 4 == w.at {
        return None;
    }
    let n = bits(numbers, w.at);
    if !count_fits(level, n) {
        return None;
    }
    if !closes(numbers, w.at + 1, level, n) {
        return None;
    }
    let v = head(out, w, level, n);
    things(numbers, out, v, level - 1, n)
}

// So many things of a level, one behind the other.
#[cycle(thing_things)]
fn things(numbers: &[u8], out: &mut [u8], w: Walk, level: u32, n: u32) -> Option<Walk>
    requires { Fair (numbers_in numbers.now) w }
    ensures { Went (emit_many (emit level) n (drop w.at (numbers_in numbers.now))) (numbers_in numbers.now) w out.old result out.new }
{
    let mut v = w;
    for _ in 0..n {
        v = thing(numbers, out, v, level)?;
    }
    Some(v)
}

// A table piece: a Triangle of one ring of four points, the fourth the first again.
fn piece(numbers: &[u8], out: &mut [u8], w: Walk) -> Option<Walk>
    requires { Fair (numbers_in numbers.now) w × (w.to ≤ 20 * w.at) }
    ensures { Went (emit_piece (drop w.at (numbers_in numbers.now))) (numbers_in numbers.now) w out.old result out.new }
{
    if numbers.len() / 4 - w.at < 6 {
        return None;
    }
    header(out, w.to, Kind::Triangle, 1);
    lent_little::put(out, w.to + 9, 4, 4);
    let ring = Walk {
        at: w.at,
        to: w.to + 13,
        points: w.points,
    };
    let v = things(numbers, out, ring, 0, 3)?;
    lent_little::put(out, v.to, pattern(bits(numbers, w.at)), 8);
    lent_little::put(out, v.to + 8, pattern(bits(numbers, w.at + 1)), 8);
    Some(Walk {
        at: v.at,
        to: v.to + 16,
        points: v.points,
    })
}

// So many table pieces.
fn pieces(numbers: &[u8], out: &mut [u8], w: Walk, n: u32) -> Option<Walk>
    requires { Fair (numbers_in numbers.now) w × (w.to ≤ 20 * w.at) }
    ensures { Went (emit_many emit_piece n (drop w.at (numbers_in numbers.now))) (numbers_in numbers.now) w out.old result out.new }
{
    let mut v = w;
    for _ in 0..n {
        v = piece(numbers, out, v)?;
    }
    Some(v)
}

// The headers of the sheet and of its table, the pieces, and the polygons.
fn body(numbers: &[u8], out: &mut [u8], t: u32, p: u32) -> Option<Walk>
    requires { (1 ≤ length (numbers_in numbers.now)) × (length (numbers_in numbers.now) ≤ 16450) × (p < members) × (polygon_count t (drop 1 (numbers_in numbers.now)) ≡ pos p) }
    ensures { Went (followed (emit_table t (drop 1 (numbers_in numbers.now))) (emit 4)) (numbers_in numbers.now) beginning out.old result out.new }
{
    header(out, 0, Kind::Collection, p + 1);
    header(out, 9, Kind::Tin, t);
    let table = Walk {
        at: 1,
        to: 18,
        points: 0,
    };
    let v = pieces(numbers, out, table, t)?;
    let polygons = Walk {
        at: v.at,
        to: v.to,
        points: 0,
    };
    thing(numbers, out, polygons, 4)
}

// The whole sheet, with no number left over and at most 4,096 polygon points: how many bytes it has.
fn sheet(numbers: &[u8], out: &mut [u8]) -> Option<usize>
    requires { length (numbers_in numbers.now) ≤ 16450 }
    ensures { Ended (emit_sheet (numbers_in numbers.now)) out.old result out.new }
{
    let count = numbers.len() / 4;
    if count == 0 {
        return None;
    }
    let t = bits(numbers, 0);
    if t < 2 {
        return None;
    }
    if t > 1024 {
        return None;
    }
    let place = 1 + 6 * t as usize;
    if count <= place {
        return None;
    }
    let p = bits(numbers, place);
    if MEMBERS <= p {
        return None;
    }
    let u = body(numbers, out, t, p)?;
    if u.at != count {
        return None;
    }
    if u.points > 4096 {
        return None;
    }
    Some(u.to)
}

// Writes the normal bytes of the sheet that the numbers give; all of it is walked over first, with a byte of its own. 42 where they give none.
pub fn write(numbers: &[u8], out: &mut [u8]) -> Result<u32, Refusal>
    ensures answered { Answered (write_outcome (sheet_given members numbers.now)) out.old (number_of result) out.new }
    ensures refused { IfErr result (λ r. (0 < code_of r.reason) × (code_of r.reason < 256)) }
{
    let none = Refusal {
        reason: Reason::NoSheet,
        item: 0,
    };
    if numbers.len() % 4 != 0 {
        return Err(none);
    }
    if numbers.len() > 65_800 {
        return Err(none);
    }
    let mut room = [0u8; 1];
    let size = sheet(numbers, &mut room).ok_or(none)?;
    if size > out.len() {
        return Err(Refusal {
            reason: Reason::Room,
            item: 0,
        });
    }
    sheet(numbers, out);
    Ok(size as u32)
}
