// Held numbers as little-endian i32, written over lent bytes; those past them keep their values.
#![tactic(auto)]

ghost use Rattle.std.specs.Prelude.{◌≡◌, ◌+◌, ◌*◌, ◌≤◌, length, take, drop};
ghost use mathlib.Core.List.{flat_map, ◌++◌};
ghost use Rattle.std.proofs.lemmas.List.Edits.{sets};
ghost use Rattle.std.specs.Int.{w32};
ghost use Rattle.std.proofs.Common.{of_z};
ghost use Rattle.plane.specs.Corners.{millimetres};
ghost use Rattle.lent_little.specs.Held.{held_bytes};

// A held number as the bits of an i32.
fn bits(h: u32) -> u32
    ensures { result ≡ of_z w32 (millimetres h) }
{
    if h < plane::OFFSET {
        h + 4_284_967_296
    } else {
        h - plane::OFFSET
    }
}

// Writes a held number as a little-endian i32.
pub fn put(out: &mut [u8], at: usize, h: u32)
    requires { at + 4 ≤ length out.old }
    ensures { out.new ≡ sets out.old at (held_bytes h) }
{
    lent_little::put(out, at, bits(h) as u64, 4);
}

// Writes the first n held numbers over the front of the lent bytes.
pub fn write(numbers: &[u32], n: usize, out: &mut [u8])
    requires { (n ≤ length numbers.now) × (4 * n ≤ length out.old) }
    ensures { out.new ≡ flat_map held_bytes (take n numbers.now) ++ drop (4 * n) out.old }
{
    for i in 0..n {
        put(out, 4 * i, numbers[i]);
    }
}
