// Reading in a mode: 0 and 1 sheets by themselves, 2 and 3 GeoPackage blobs, of the present edition and of the older one, whose rings are turned once the
// sheet is read.
#![tactic(auto)]

ghost use Rattle.std.specs.Prelude.{◌≡◌, cond, ℕ, ◌≤◌, length};
ghost use Rattle.sheet_form.specs.Numbers.{Sheet};
ghost use Rattle.sheet.specs.Held.{SheetHeld};
ghost use Rattle.sheet_modes.specs.Modes.{present, older, framed};
ghost use Rattle.sheet_modes.specs.Held.{Room, around_of, EndsAs, GotAs};

use lent::{Fault, Reason, Refusal};
use sheet_blob::Opened;
use sheet_form::MEMBERS;

// The envelope around a sheet in numbers, where there is one, equals the frame of its table. What stands around it is the header of a blob, or nothing.
pub fn framed(numbers: &[u32], around: Option<Opened>) -> bool
    requires { (limit : ℕ) × (n : Sheet) × SheetHeld limit n numbers.now }
    ensures { (limit : ℕ) (n : Sheet) → SheetHeld limit n numbers.now → result ≡ framed (around_of around) n }
{
    sheet_framed::framed(numbers, around.and_then(|h| h.envelope))
}

// Reads a sheet by itself, of the older edition or not, into lent numbers.
fn sheet_of(s: &[u8], turns: bool, numbers: &mut [u32]) -> Result<usize, Fault>
    requires { Room s.now numbers.old }
    ensures { EndsAs (cond turns older present) s.now result numbers.new × (length numbers.new ≡ length numbers.old) }
{
    let n = sheet::read(s, MEMBERS, numbers)?;
    if turns {
        sheet_older::turn(&mut numbers[..n]);
    }
    Ok(n)
}

// Reads a sheet in a mode into lent numbers: its numbers form, each number plus 10,000,000. Answers how many numbers, and the header that stands around the sheet or
// none. 57 for an unknown mode, before everything else.
pub fn read(s: &[u8], mode: u32, numbers: &mut [u32]) -> Result<(usize, Option<Opened>), Fault>
    requires { Room s.now numbers.old }
    ensures { GotAs mode s.now result numbers.new × (length numbers.new ≡ length numbers.old) }
{
    if 3 < mode {
        return Err(Fault {
            refusal: Refusal {
                reason: Reason::Mode,
                item: 0,
            },
            position: 0,
        });
    }
    if mode < 2 {
        let n = sheet_of(s, mode == 1, numbers)?;
        return Ok((n, None));
    }
    let h = sheet_blob::header(s)?;
    let n = sheet_of(&s[h.at..], mode == 3, numbers).map_err(|f| Fault {
        refusal: f.refusal,
        position: h.at + f.position,
    })?;
    Ok((n, Some(h)))
}
