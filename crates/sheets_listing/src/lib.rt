// The printed listing of a sheet as the exported entry answers it: the item, or a refusal.
#![tactic(auto)]

ghost use Rattle.lent.specs.Answered.{Answered};
ghost use Rattle.lent.specs.Told.{number_of};
ghost use Rattle.outcomes.specs.Entries.{sheet_listing_by};

use lent::{Reason, Refusal};

// The printed listing of a sheet that is read in a mode and repaired in a way; the item is the number of bytes. A refused sheet has a listing too.
pub fn listing(sheet: &[u8], mode: u32, way: u32, out: &mut [u8]) -> Result<u32, Refusal>
    ensures { Answered (sheet_listing_by mode way sheet.now) out.old (number_of result) out.new }
{
    let mut text = [0u8; 6600];
    let n = listing::print(sheet, mode, way, &mut text);
    if out.len() < n {
        return Err(Refusal {
            reason: Reason::Room,
            item: 0,
        });
    }
    lent_text::put_word(out, 0, &text[..n]);
    Ok(n as u32)
}
