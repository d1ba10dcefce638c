// The boundary sides of a polygon after repair, written over lent bytes.
#![tactic(auto)]

ghost use Rattle.std.specs.Prelude.{◌≡◌, ◌+◌, ◌*◌, ◌≤◌, length, drop};
ghost use mathlib.Core.List.{flat_map, map, ◌++◌};
ghost use Rattle.std.proofs.lemmas.List.Edits.{sets};
ghost use Rattle.whole.specs.Sums.{All};
ghost use Rattle.lent_little.specs.Held.{SideIn, side_held};
ghost use Rattle.lent.specs.Answered.{Answered};
ghost use Rattle.lent.specs.Told.{number_of};
ghost use Rattle.owners_marks.specs.Sets.{owners_of};
ghost use Rattle.repair_regions.specs.Spreading.{Paired};
ghost use Rattle.repair_longest.specs.Held.{TableIn, lengths_held};
ghost use Rattle.repair_answers.specs.Held.{sides_outcome};

use lent::{Reason, Refusal};

// Writes side k of the table, off the numbers form: the coordinates of corner k, then those of the next corner of its triangle.
fn put_side(numbers: &[u32], k: usize, out: &mut [u8], at: usize)
    requires { SideIn numbers.now k × (at + 16 ≤ length out.old) }
    ensures { out.new ≡ sets out.old at (side_held numbers.now k) }
{
    let u = 2 * k + 1;
    let v = 2 * (k - k % 3 + (k + 1) % 3) + 1;
    lent_numbers::put(out, at, numbers[u]);
    lent_numbers::put(out, at + 4, numbers[u + 1]);
    lent_numbers::put(out, at + 8, numbers[v]);
    lent_numbers::put(out, at + 12, numbers[v + 1]);
}

// Writes sides of the table by number, 16 bytes each, over the front of the lent bytes.
fn write_sides(numbers: &[u32], sides: &[usize], out: &mut [u8])
    requires { All (SideIn numbers.now) sides.now × (16 * length sides.now ≤ length out.old) }
    ensures { out.new ≡ flat_map (side_held numbers.now) sides.now ++ drop (16 * length sides.now) out.old }
{
    for (i, k) in sides.iter().enumerate() {
        put_side(numbers, *k, out, 16 * i);
    }
}

// Each side uv of the polygon's triangles after repair in a way whose vu is no side of those, 16 bytes each, by triangle and then ab, bc, ca; a
// refusal of repair is passed on.
pub fn boundary(
    way: u32,
    numbers: &[u32],
    opposite: &[usize],
    sets: &[u64],
    polygon: u8,
    out: &mut [u8],
) -> Result<u32, Refusal>
    requires { Paired opposite.now (length sets.now) × (length sets.now ≤ 1024) × TableIn numbers.now (length sets.now) }
    ensures { Answered (sides_outcome numbers.now way (lengths_held numbers.now (length opposite.now)) opposite.now (map owners_of sets.now) polygon) out.old (number_of result) out.new }
{
    let n = sets.len();
    let m = opposite.len();
    let mut owners = [0u8; 1024];
    let mut sides = [0usize; 3072];
    repair::repair(way, numbers, opposite, sets, &mut owners[..n])?;
    let k = repair_sides::boundary(opposite, &owners[..n], polygon, &mut sides[..m]);
    if out.len() / 16 < k {
        return Err(Refusal {
            reason: Reason::Room,
            item: 0,
        });
    }
    write_sides(numbers, &sides[..k], out);
    Ok(k as u32)
}
