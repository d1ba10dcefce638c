// The header of a GeoPackage geometry blob, read field by field: letters, version, flags, number, envelope.
#![tactic(auto)]

ghost use Rattle.std.specs.Prelude.{◌≡◌, get_or};
ghost use Rattle.sheet_blob.specs.Opening.{fault, opening_of, rest_of};

use lent::{Fault, Reason, Refusal};
use lent_fields::word;
use sheet_envelope::Envelope;

// A header read: the 32 bits of its reference-system number, where the sheet begins, and its envelope or none.
#[derive(Clone, Copy)]
pub struct Opened {
    pub number: u32,
    pub at: usize,
    pub envelope: Option<Envelope>,
}

// The fault of a header with a reason and a position; its item is 0.
fn fault(reason: Reason, position: usize) -> Fault
    ensures { result ≡ fault reason position }
{
    Fault {
        refusal: Refusal { reason, item: 0 },
        position,
    }
}

// The number, and the envelope of kind 1.
fn rest(s: &[u8], flags: u8) -> Result<Opened, Fault>
    requires { flags ≡ get_or s.now 3 0 }
    ensures { result ≡ rest_of s.now }
{
    if s.len() < 8 {
        return Err(fault(Reason::Short, 4));
    }
    let little = flags % 2 == 1;
    let number = word(s, 4, little);
    if flags / 2 % 8 == 0 {
        return Ok(Opened {
            number,
            at: 8,
            envelope: None,
        });
    }
    if s.len() < 40 {
        return Err(fault(Reason::Short, 8));
    }
    Ok(Opened {
        number,
        at: 40,
        envelope: Some(sheet_envelope::read(s, 8, little)),
    })
}

// The header at the front of the bytes.
pub fn header(s: &[u8]) -> Result<Opened, Fault>
    ensures { result ≡ opening_of s.now }
{
    if s.len() < 2 {
        return Err(fault(Reason::Short, 0));
    }
    if s[0] != b'G' {
        return Err(fault(Reason::NoBlob, 0));
    }
    if s[1] != b'P' {
        return Err(fault(Reason::NoBlob, 0));
    }
    if s.len() < 3 {
        return Err(fault(Reason::Short, 2));
    }
    if s[2] != 0 {
        return Err(fault(Reason::NoBlob, 0));
    }
    if s.len() < 4 {
        return Err(fault(Reason::Short, 3));
    }
    let flags = s[3];
    if flags / 16 != 0 {
        return Err(fault(Reason::NoBlob, 0));
    }
    if 2 <= flags / 2 % 8 {
        return Err(fault(Reason::EnvelopeKind, 0));
    }
    rest(s, flags)
}
