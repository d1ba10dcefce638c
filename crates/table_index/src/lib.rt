// The sides of a table made ready to be looked up: the code of each, the sides in chains, the side across each side, and the first side of an earlier triangle (rule B).
#![tactic(auto)]

ghost use Rattle.std.specs.Prelude.{◌≡◌, [], ℕ, ◌*◌, ◌≤◌, ◌<◌, length, get_or};
ghost use Rattle.whole.specs.Tests.{Told};
ghost use Rattle.whole.specs.Sums.{All};
ghost use Rattle.plane.specs.Keys.{Key};
ghost use Rattle.table.specs.Table.{RuleB, first_fault, repeats};
ghost use Rattle.table.specs.Sides.{triangles_of, tails_of, found};
ghost use Rattle.whole_order.specs.Ascending.{Ascending, ascending};
ghost use Rattle.table_sides.specs.Codes.{codes_of};
ghost use Rattle.table_sides.specs.Chains.{clear_in};
ghost use Rattle.table_chains.specs.Linking.{Within};
ghost use Rattle.table_count.specs.Counting.{ClearOf};
ghost use Rattle.table_count.specs.Indexed.{Indexed};
ghost use Rattle.table_index.specs.Noting.{Noted, NotedTo};

// Lays down the code of each side, from its corner and the corner at which it ends.
fn codes(corners: &[u64], keys: &[u64], codes: &mut [u64])
    requires { Ascending corners.now × (length corners.now ≤ 4096) × ((n : ℕ) × (length keys.now ≡ 3 * n)) × (length codes.old ≡ length keys.now) }
    ensures { codes.new ≡ codes_of corners.now keys.now (tails_of keys.now) }
{
    for t in 0..keys.len() / 3 {
        let i = 3 * t;
        let a = whole_order::place(corners, keys[i]);
        let b = whole_order::place(corners, keys[i + 1]);
        let c = whole_order::place(corners, keys[i + 2]);
        codes[i] = table_sides::code(a, b);
        codes[i + 1] = table_sides::code(b, c);
        codes[i + 2] = table_sides::code(c, a);
    }
}

// No corner is strictly between those with the places a and b, of which a is the lower.
fn is_clear(corners: &[u64], a: usize, b: usize) -> bool
    requires { Ascending corners.now × All Key corners.now × (a < b) × (b < length corners.now) }
    ensures { Told result (ClearOf corners.now (get_or corners.now a 0) (get_or corners.now b 0)) (ClearOf corners.now (get_or corners.now a 0) (get_or corners.now b 0) → ⊥) }
{
    corners.len() <= table_count::next_stop(corners, a, corners[a], corners[b])
}

// What is added to the number of a side with this code in the chains, to note that no corner is inside it. That is looked at for one of a side and its reverse.
fn note(corners: &[u64], code: u64, opposite: usize) -> u64
    requires { Ascending corners.now × All Key corners.now × Within (length corners.now) code }
    ensures { Noted corners.now code result }
{
    let a = (code / 4096) as usize;
    let b = (code % 4096) as usize;
    if a < b && is_clear(corners, a, b) {
        return 281_474_976_710_656;
    }
    if opposite == 0 && b < a && is_clear(corners, b, a) {
        return 281_474_976_710_656;
    }
    0
}

// Notes of the sides with these codes that no corner is inside them.
fn notes(corners: &[u64], codes: &[u64], opposite: &[usize], index: &mut [u64])
    requires { Ascending corners.now × All Key corners.now × All (Within (length corners.now)) codes.now × (length opposite.now ≡ length codes.now) × (length index.old ≡ length codes.now)
        × ((i : ℕ) → i < length codes.now → clear_in (get_or index.old i 0) ≡ 0) }
    ensures { NotedTo corners.now codes.now index.old index.new (length codes.now) }
{
    for (k, code) in codes.iter().enumerate() {
        index[k] += note(corners, *code, opposite[k]);
    }
}

// Lays down the codes of the table's sides, hangs the sides in chains, and lays down the side across each side.
fn lay_sides(
    keys: &[u64],
    ordered: &[u64],
    lent: &[u8],
    codes: &mut [u64],
    index: &mut [u64],
    opposite: &mut [usize],
) -> Option<usize>
    requires { All Key keys.now × ((n : ℕ) × (length keys.now ≡ 3 * n)) × (length keys.now ≤ 3072) × (ordered.now ≡ ascending keys.now)
        × (length codes.old ≡ length keys.now) × (length index.old ≡ length keys.now) × (length opposite.old ≡ length keys.now) }
    ensures { (found result ≡ first_fault repeats [] (triangles_of keys.now)) × (RuleB (triangles_of keys.now) → Indexed keys.now ordered.now index.new opposite.new) }
{
    self::codes(ordered, keys, codes);
    table_chains::unlinked(codes, index);
    if let Some(t) = table_chains::repeated_side(codes, index) {
        return Some(t);
    }
    table_chains::opposites(index, codes, lent, opposite);
    notes(ordered, codes, opposite, index);
    None
}

// Makes at most so many sides ready to be looked up, their codes laid down in a work list of that length.
fn index_in<const SIDES: usize>(
    keys: &[u64],
    ordered: &[u64],
    lent: &[u8],
    index: &mut [u64],
    opposite: &mut [usize],
) -> Option<usize>
    requires { All Key keys.now × ((n : ℕ) × (length keys.now ≡ 3 * n)) × (length keys.now ≤ SIDES) × (ordered.now ≡ ascending keys.now)
        × (SIDES ≤ 3072) × (length index.old ≡ length keys.now) × (length opposite.old ≡ length keys.now) }
    ensures { (found result ≡ first_fault repeats [] (triangles_of keys.now)) × (RuleB (triangles_of keys.now) → Indexed keys.now ordered.now index.new opposite.new) }
{
    let n = keys.len();
    let mut codes = [0u64; SIDES];
    lay_sides(keys, ordered, lent, &mut codes[..n], index, opposite)
}

// Makes the table's sides ready to be looked up, and lays down the side across each side, which a lent index may say where to look for. Answers the number of the
// first triangle with a side of an earlier one, counted from 1.
pub fn index_sides(
    keys: &[u64],
    ordered: &[u64],
    lent: &[u8],
    index: &mut [u64],
    opposite: &mut [usize],
) -> Option<usize>
    requires { All Key keys.now × ((n : ℕ) × (length keys.now ≡ 3 * n)) × (length keys.now ≤ 3072) × (ordered.now ≡ ascending keys.now)
        × (length index.old ≡ length keys.now) × (length opposite.old ≡ length keys.now) }
    ensures { (found result ≡ first_fault repeats [] (triangles_of keys.now)) × (RuleB (triangles_of keys.now) → Indexed keys.now ordered.now index.new opposite.new) }
{
    if keys.len() <= 192 {
        index_in::<192>(keys, ordered, lent, index, opposite)
    } else {
        index_in::<3072>(keys, ordered, lent, index, opposite)
    }
}
