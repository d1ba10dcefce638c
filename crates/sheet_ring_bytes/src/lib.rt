// The boundary of a polygon after repair as closed lines, written over lent bytes as a WKB MultiLineString.
#![tactic(auto)]

ghost use Rattle.std.specs.Prelude.{◌≡◌, true, [], map, ◌+◌, ◌*◌, ◌≤◌, ◌<◌, length};
ghost use Rattle.std.proofs.lemmas.List.Edits.{sets};
ghost use Rattle.whole.specs.Sums.{All};
ghost use Rattle.plane.specs.Corners.{millimetres};
ghost use Rattle.lent.specs.Answered.{Answered, answer_of};
ghost use Rattle.lent.specs.Told.{number_of};
ghost use Rattle.lent_little.specs.Held.{SideIn};
ghost use Rattle.owners_marks.specs.Sets.{owners_of};
ghost use Rattle.repair_regions.specs.Spreading.{Paired};
ghost use Rattle.repair_longest.specs.Held.{TableIn, point_held, lengths_held};
ghost use Rattle.repair.specs.Ways.{repaired_by};
ghost use Rattle.wkb.specs.Standard.{encode_point};
ghost use Rattle.wkb_lines.specs.Lines.{encode_line};
ghost use Rattle.wkb_lines.specs.Room.{room_of};
ghost use Rattle.sheet_written.specs.Normal.{pattern_of, pair_of};
ghost use Rattle.sheet_ring_bytes.specs.Lines.{line_bytes};
ghost use Rattle.sheet_ring_bytes.specs.Held.{line_held, polygon_rings, rings_outcome, ring_room_outcome, rings_in, Rising, JoinedBy, Begun};

use lent::{Reason, Refusal};
use plane::OFFSET;
use wkb_kinds::Kind;

// How many bytes so many rings of so many sides have.
fn room(sides: usize, rings: usize) -> usize
    requires { (sides ≤ 3072) × (rings ≤ 3072) }
    ensures { result ≡ room_of sides rings }
{
    9 + 16 * sides + 25 * rings
}

// The pattern of a held coordinate's double.
fn pattern(h: u32) -> u64
    ensures { result ≡ pattern_of (millimetres h) }
{
    lent_fields::pattern((h as i64 - OFFSET as i64) as f64)
}

// Writes corner c of the table as a point, off the numbers form.
fn put_point(numbers: &[u32], c: usize, out: &mut [u8], to: usize)
    requires { (2 * c + 2 < length numbers.now) × (to ≤ 500000) }
    ensures { out.new ≡ sets out.old to (encode_point true (pair_of (point_held numbers.now c))) }
{
    lent_little::put(out, to, pattern(numbers[2 * c + 1]), 8);
    lent_little::put(out, to + 8, pattern(numbers[2 * c + 2]), 8);
}

// Writes a ring as a closed LineString: where its first side begins, and where each side ends.
fn put_line(numbers: &[u32], ring: &[usize], out: &mut [u8], to: usize)
    requires { All (SideIn numbers.now) ring.now × (1 ≤ length ring.now) × (length ring.now ≤ 3072) × (to ≤ 200000) }
    ensures { out.new ≡ sets out.old to (encode_line (map pair_of (line_held numbers.now ring.now))) }
{
    wkb_header::put(out, to, Kind::LINE_STRING, ring.len() as u32 + 1);
    put_point(numbers, ring[0], out, to + 9);
    for (i, &k) in ring.iter().enumerate() {
        put_point(numbers, k - k % 3 + (k + 1) % 3, out, to + 25 + 16 * i);
    }
}

// Writes rings as a MultiLineString: the sides of all, one ring behind the other, and where each ends.
fn put_lines(numbers: &[u32], order: &[usize], ends: &[usize], out: &mut [u8])
    requires { All (SideIn numbers.now) order.now × Rising 0 ends.now (length order.now) × (length order.now ≤ 3072) × (length ends.now ≤ 3072) }
    ensures { out.new ≡ sets out.old 0 (line_bytes (map (line_held numbers.now) (rings_in 0 order.now ends.now))) }
{
    wkb_header::put(out, 0, Kind::MULTI_LINE_STRING, ends.len() as u32);
    let mut begin: usize = 0;
    for (r, &end) in ends.iter().enumerate() {
        put_line(numbers, &order[begin..end], out, room(begin, r));
        begin = end;
    }
}

// What was joined: so many sides in so many rings.
#[derive(Clone, Copy)]
pub struct Joined {
    pub sides: usize,
    pub rings: usize,
}

// The rings of the polygon after repair in a way, by the numbers of their sides, one behind the other, and where each ends.
fn found(
    way: u32,
    numbers: &[u32],
    opposite: &[usize],
    sets: &[u64],
    polygon: u8,
    order: &mut [usize],
    ends: &mut [usize],
) -> Result<Joined, Refusal>
    requires { Paired opposite.now (length sets.now) × (length sets.now ≤ 1024) × TableIn numbers.now (length sets.now) × (length order.old ≡ 3072) × (length ends.old ≡ 3072) }
    ensures { JoinedBy (repaired_by way (lengths_held numbers.now (length opposite.now)) opposite.now (map owners_of sets.now))
        (λ l. polygon_rings opposite.now l polygon) result order.new ends.new }
{
    let n = sets.len();
    let m = opposite.len();
    let mut owners = [0u8; 1024];
    let mut sides = [0usize; 3072];
    repair::repair(way, numbers, opposite, sets, &mut owners[..n])?;
    let k = repair_sides::boundary(opposite, &owners[..n], polygon, &mut sides[..m]);
    let r = repair_ring_walk::rings(
        opposite,
        &owners[..n],
        polygon,
        &sides[..k],
        &mut order[..k],
        &mut ends[..k],
    );
    if r == 0 {
        return Ok(Joined { sides: 0, rings: 0 });
    }
    Ok(Joined {
        sides: ends[r - 1],
        rings: r,
    })
}

// The boundary sides of the polygon after repair in a way, joined into closed rings, as a MultiLineString; the item is the number of bytes. A refusal of repair is
// passed on.
pub fn rings(
    way: u32,
    numbers: &[u32],
    opposite: &[usize],
    sets: &[u64],
    polygon: u8,
    out: &mut [u8],
) -> Result<u32, Refusal>
    requires { Paired opposite.now (length sets.now) × (length sets.now ≤ 1024) × TableIn numbers.now (length sets.now)
        × Begun (repaired_by way (lengths_held numbers.now (length opposite.now)) opposite.now (map owners_of sets.now)) (λ l. polygon_rings opposite.now l polygon) }
    ensures { Answered (rings_outcome numbers.now way (lengths_held numbers.now (length opposite.now)) opposite.now (map owners_of sets.now) polygon) out.old (number_of result) out.new }
{
    let mut order = [0usize; 3072];
    let mut ends = [0usize; 3072];
    let joined = found(way, numbers, opposite, sets, polygon, &mut order, &mut ends)?;
    let size = room(joined.sides, joined.rings);
    if out.len() < size {
        return Err(Refusal {
            reason: Reason::Room,
            item: 0,
        });
    }
    put_lines(numbers, &order[..joined.sides], &ends[..joined.rings], out);
    Ok(size as u32)
}

// How many bytes the same MultiLineString has, as the item; a refusal of repair is passed on.
pub fn ring_room(
    way: u32,
    numbers: &[u32],
    opposite: &[usize],
    sets: &[u64],
    polygon: u8,
) -> Result<u32, Refusal>
    requires { Paired opposite.now (length sets.now) × (length sets.now ≤ 1024) × TableIn numbers.now (length sets.now)
        × Begun (repaired_by way (lengths_held numbers.now (length opposite.now)) opposite.now (map owners_of sets.now)) (λ l. polygon_rings opposite.now l polygon) }
    ensures { number_of result ≡ answer_of (ring_room_outcome numbers.now way (lengths_held numbers.now (length opposite.now)) opposite.now (map owners_of sets.now) polygon) [] }
{
    let mut order = [0usize; 3072];
    let mut ends = [0usize; 3072];
    let joined = found(way, numbers, opposite, sets, polygon, &mut order, &mut ends)?;
    Ok(room(joined.sides, joined.rings) as u32)
}
