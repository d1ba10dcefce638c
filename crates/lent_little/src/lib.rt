// A number as little-endian bytes, written over lent ones; the others keep their values.
#![tactic(auto)]

ghost use Rattle.std.specs.Prelude.{◌≡◌, ◌+◌, ◌^◌, ◌<◌};
ghost use Rattle.std.proofs.lemmas.List.Edits.{sets};
ghost use Rattle.lent_little.specs.Ordered.{bytes};

// Writes the n low bytes of a number, the least significant first, wherever there is room.
pub fn put(out: &mut [u8], to: usize, value: u64, n: usize)
    requires { to + n < 2 ^ 64 }
    ensures { out.new ≡ sets out.old to (bytes n value) }
{
    let mut v = value;
    for i in 0..n {
        if to + i < out.len() {
            out[to + i] = (v % 256) as u8;
        }
        v /= 256;
    }
}
