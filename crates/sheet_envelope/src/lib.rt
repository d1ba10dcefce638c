// The envelope of a GeoPackage geometry: four doubles in one record, read from the header's bytes and written to them, made around a frame and compared
// with one.
#![tactic(auto)]

ghost use Rattle.std.specs.Prelude.{◌≡◌, ◌+◌, ◌^◌, ◌≤◌, ◌<◌, length};
ghost use Rattle.std.specs.Float.{binary64};
ghost use Rattle.std.specs.Float.Ieee.{of_int};
ghost use Rattle.std.proofs.lemmas.List.Edits.{sets};
ghost use Rattle.plane.specs.Corners.{millimetres};
ghost use Rattle.table_check.specs.Framing.{frame_held};
ghost use Rattle.sheet_envelope.specs.Envelope.{envelope_at, around, agrees};
ghost use Rattle.sheet_envelope.specs.Written.{envelope_bytes};

use plane::OFFSET;
use table_check::Frame;

// The least x, the greatest x, the least y and the greatest y.
#[derive(Clone, Copy, PartialEq)]
pub struct Envelope {
    pub left: f64,
    pub right: f64,
    pub low: f64,
    pub high: f64,
}

// The envelope of the 32 bytes at a place.
pub fn read(s: &[u8], at: usize, little: bool) -> Envelope
    requires { at + 32 ≤ length s.now }
    ensures { result ≡ envelope_at little s.now at }
{
    Envelope {
        left: lent_fields::double(s, at, little),
        right: lent_fields::double(s, at + 8, little),
        low: lent_fields::double(s, at + 16, little),
        high: lent_fields::double(s, at + 24, little),
    }
}

// Writes the envelope's 32 bytes, little-endian, wherever there is room.
pub fn put(e: Envelope, out: &mut [u8], to: usize)
    requires { to + 32 < 2 ^ 64 }
    ensures { out.new ≡ sets out.old to (envelope_bytes e) }
{
    lent_little::put(out, to, lent_fields::pattern(e.left), 8);
    lent_little::put(out, to + 8, lent_fields::pattern(e.right), 8);
    lent_little::put(out, to + 16, lent_fields::pattern(e.low), 8);
    lent_little::put(out, to + 24, lent_fields::pattern(e.high), 8);
}

// The double of a held bound.
fn bound(h: u32) -> f64
    ensures { result ≡ of_int binary64 (millimetres h) }
{
    (h as i64 - OFFSET as i64) as f64
}

// The envelope of a frame: its bounds as doubles.
pub fn of_frame(f: Frame) -> Envelope
    ensures { result ≡ around (frame_held f) }
{
    Envelope {
        left: bound(f.left),
        right: bound(f.right),
        low: bound(f.low),
        high: bound(f.high),
    }
}

// An envelope that is there equals the frame, as numbers: -0 equals 0, a NaN equals nothing.
#[tactic(auto, unfolding(crate::specs::Envelope::same_frame))]
pub fn agrees(o: Option<Envelope>, f: Frame) -> bool
    ensures { result ≡ agrees o (frame_held f) }
{
    o.is_none_or(|e| e == of_frame(f))
}
