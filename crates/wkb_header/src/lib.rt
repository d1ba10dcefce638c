// The header of a geometry, written over lent bytes.
#![tactic(auto)]

ghost use Rattle.std.specs.Prelude.{◌≡◌, ◌+◌, ◌^◌, ◌<◌};
ghost use Rattle.std.proofs.lemmas.List.Edits.{sets};
ghost use Rattle.wkb_header.specs.Header.{headed};

// Writes the header of a geometry of a type that has so many parts, little-endian, wherever there is room.
pub fn put(out: &mut [u8], to: usize, kind: u32, n: u32)
    requires { to + 9 < 2 ^ 64 }
    ensures { out.new ≡ sets out.old to (headed kind n) }
{
    lent_little::put(out, to, 1, 1);
    lent_little::put(out, to + 1, kind as u64, 4);
    lent_little::put(out, to + 5, n as u64, 4);
}
