// Numbers of 64 bits, written over lent bytes: the owners of each triangle before repair, the double areas of the polygons.
#![tactic(auto)]

ghost use Rattle.std.specs.Prelude.{◌≡◌, ◌*◌, ◌≤◌, length, take, drop};
ghost use mathlib.Core.List.{flat_map, ◌++◌};
ghost use Rattle.lent_little.specs.Bytes.{set_bytes};
ghost use Rattle.lent.specs.Answered.{Answered};
ghost use Rattle.lent.specs.Told.{number_of};
ghost use Rattle.lent_sets.specs.Sets.{each_outcome};

use lent::{Reason, Refusal};

// Writes the first n numbers over the front of the lent bytes.
fn write(numbers: &[u64], n: usize, out: &mut [u8])
    requires { (n ≤ length numbers.now) × (8 * n ≤ length out.old) }
    ensures { out.new ≡ flat_map set_bytes (take n numbers.now) ++ drop (8 * n) out.old }
{
    for i in 0..n {
        lent_little::put(out, 8 * i, numbers[i], 8);
    }
}

// Each number as a little-endian u64, in their order; the item is how many there are.
pub fn each(numbers: &[u64], out: &mut [u8]) -> Result<u32, Refusal>
    requires { length numbers.now ≤ 1024 }
    ensures { Answered (each_outcome numbers.now) out.old (number_of result) out.new }
{
    let n = numbers.len();
    if out.len() / 8 < n {
        return Err(Refusal {
            reason: Reason::Room,
            item: 0,
        });
    }
    write(numbers, n, out);
    Ok(n as u32)
}
