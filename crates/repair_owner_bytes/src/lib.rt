// The number of each triangle after repair, written over lent bytes.
#![tactic(auto)]

ghost use Rattle.std.specs.Prelude.{map, ◌≤◌, length};
ghost use Rattle.lent.specs.Answered.{Answered};
ghost use Rattle.lent.specs.Told.{number_of};
ghost use Rattle.owners_marks.specs.Sets.{owners_of};
ghost use Rattle.repair_regions.specs.Spreading.{Paired};
ghost use Rattle.repair_longest.specs.Held.{TableIn, lengths_held};
ghost use Rattle.repair_answers.specs.Held.{owners_outcome};

use lent::{Reason, Refusal};

// One byte per triangle in table order, its number after repair in a way, by the table's corners off the numbers form; a refusal of repair is passed on.
pub fn owners(
    way: u32,
    table: &[u32],
    opposite: &[usize],
    sets: &[u64],
    out: &mut [u8],
) -> Result<u32, Refusal>
    requires { Paired opposite.now (length sets.now) × (length sets.now ≤ 1024) × TableIn table.now (length sets.now) }
    ensures { Answered (owners_outcome way (lengths_held table.now (length opposite.now)) opposite.now (map owners_of sets.now)) out.old (number_of result) out.new }
{
    let n = sets.len();
    let mut owners = [0u8; 1024];
    repair::repair(way, table, opposite, sets, &mut owners[..n])?;
    if out.len() < n {
        return Err(Refusal {
            reason: Reason::Room,
            item: 0,
        });
    }
    lent_text::put_word(out, 0, &owners[..n]);
    Ok(n as u32)
}
