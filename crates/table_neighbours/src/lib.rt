// The neighbours of a table's triangles, kept beside it as bytes: written over lent ones, and compared with an index that is lent.
#![tactic(auto)]

ghost use Rattle.std.specs.Prelude.{◌≡◌, true, cond, [], ◌∷◌, ◌++◌, ◌+◌, ◌*◌, ◌≤◌, ◌<◌, length, get_or, drop};
ghost use Rattle.lent.specs.Answered.{Answered};
ghost use Rattle.lent.specs.Told.{number_of};
ghost use Rattle.table_neighbours.specs.Neighbours.{u16, same_bytes};
ghost use Rattle.table_neighbours.specs.Held.{triangle_of, held_index, whole_outcome};

use lent::{Reason, Refusal};

// The number of the triangle that has the side of a number; both are counted from 1, and 0 stands for none.
fn triangle_of(side: usize) -> u64
    ensures { result ≡ triangle_of side }
{
    if side == 0 {
        return 0;
    }
    (side as u64 - 1) / 3 + 1
}

// Writes the index over the front of the lent bytes, by the numbers of the reverses of the sides.
fn lay(opposite: &[usize], out: &mut [u8])
    requires { (length opposite.now ≤ 3072) × (2 * length opposite.now ≤ length out.old) }
    ensures { out.new ≡ held_index opposite.now ++ drop (2 * length opposite.now) out.old }
{
    for (i, side) in opposite.iter().enumerate() {
        lent_little::put(out, 2 * i, triangle_of(*side), 2);
    }
}

// The index of a table, written over the front of the lent bytes; the item is the number of bytes.
pub fn write(opposite: &[usize], out: &mut [u8]) -> Result<u32, Refusal>
    requires { length opposite.now ≤ 3072 }
    ensures { Answered (whole_outcome (held_index opposite.now)) out.old (number_of result) out.new }
{
    let n = 2 * opposite.len();
    if out.len() < n {
        return Err(Refusal {
            reason: Reason::Room,
            item: 0,
        });
    }
    lay(opposite, out);
    Ok(n as u32)
}

// The bytes at a place are those of the number.
fn stands(index: &[u8], at: usize, n: u64) -> bool
    requires { at + 1 < length index.now }
    ensures { result ≡ same_bytes (get_or index.now at 0 ∷ get_or index.now (at + 1) 0 ∷ []) (u16 n) }
{
    if index[at] as u64 != n % 256 {
        return false;
    }
    index[at + 1] as u64 == n / 256 % 256
}

// The lent index is the table's own, in length and content.
pub fn is_own(opposite: &[usize], index: &[u8]) -> bool
    requires { length opposite.now ≤ 3072 }
    ensures { result ≡ same_bytes index.now (held_index opposite.now) }
{
    if index.len() != 2 * opposite.len() {
        return false;
    }
    for (i, side) in opposite.iter().enumerate() {
        if !stands(index, 2 * i, triangle_of(*side)) {
            return false;
        }
    }
    true
}

// An index that is lent is the table's own; where none is lent there is nothing to compare.
pub fn agrees(lent: bool, opposite: &[usize], index: &[u8]) -> bool
    requires { length opposite.now ≤ 3072 }
    ensures { result ≡ cond lent (same_bytes index.now (held_index opposite.now)) true }
{
    if !lent {
        return true;
    }
    is_own(opposite, index)
}
