// The sides of a table hung in chains by the corner at which they begin: the first side of an earlier triangle (rule B), and the side across each side.
#![tactic(auto)]

ghost use Rattle.std.specs.Prelude.{◌≡◌, ℕ, suc, ◌-◌, ◌%◌, ◌≤◌, ◌<◌, length, get_or, MatchOption};
ghost use Rattle.whole.specs.Tests.{Told};
ghost use Rattle.whole.specs.Sums.{All};
ghost use Rattle.whole_order.specs.Ascending.{Distinct};
ghost use Rattle.table.specs.Sides.{FirstRepeat};
ghost use Rattle.table_sides.specs.Codes.{turned_in};
ghost use Rattle.table_sides.specs.Numbered.{number_in};
ghost use Rattle.table_sides.specs.Chains.{next_in, clear_in};
ghost use Rattle.table_chains.specs.Linking.{Within, LinkedTo, Hung};

// Lays down the code of each side, with no side in a chain.
pub fn unlinked(codes: &[u64], index: &mut [u64])
    requires { All (Within (length codes.now)) codes.now × (length codes.now ≤ 3072) × (length index.old ≡ length codes.now) }
    ensures { LinkedTo codes.now index.new 0 }
{
    for (i, code) in codes.iter().enumerate() {
        index[i] = *code * 4096;
    }
}

// Puts side k at the front of the chain of the corner with place c.
fn link(index: &mut [u64], c: usize, k: usize)
    requires { (c < length index.old) × (k < length index.old) × (k < 3072) × (next_in (get_or index.old k 0) ≡ 0) × ((i : ℕ) → i < length index.old → clear_in (get_or index.old i 0) ≡ 0) }
    ensures { Hung index.old index.new c k }
{
    index[k] += table_sides::head(index[c]) as u64;
    index[c] = index[c] % 68_719_476_736 + (k as u64 + 1) * 68_719_476_736;
}

// Side j is one of an earlier triangle than side k, and the same ordered pair.
fn is_repeat(codes: &[u64], j: usize, k: usize) -> bool
    requires { (j < length codes.now) × (k < length codes.now) }
    ensures { Told result ((j < k - k % 3) × (get_or codes.now j 0 ≡ get_or codes.now k 0)) (j < k - k % 3 → get_or codes.now j 0 ≡ get_or codes.now k 0 → ⊥) }
{
    if k - k % 3 <= j {
        return false;
    }
    codes[j] == codes[k]
}

// The number, counted from 1, of the first triangle that has a side of an earlier one; where none has, all sides hang in chains. Each side is given by a code, by
// triangle and then ab, bc, ca; equal codes are the same ordered pair, and begin at one corner: each side is compared with those of its chain.
pub fn repeated_side(codes: &[u64], index: &mut [u64]) -> Option<usize>
    requires { All (Within (length codes.now)) codes.now × (length codes.now ≤ 3072) × LinkedTo codes.now index.old 0 }
    ensures { MatchOption result (FirstRepeat codes.now 0 × LinkedTo codes.now index.new (length codes.now)) (λ t. (0 < t) × FirstRepeat codes.now t) }
{
    let mut repeated = None;
    'search: for k in 0..codes.len() {
        let c = (codes[k] / 4096) as usize;
        // A while: the chain is followed.
        let mut j = table_sides::head(index[c]);
        while 0 < j {
            if is_repeat(codes, j - 1, k) {
                repeated = Some(k / 3 + 1);
                break 'search;
            }
            j = table_sides::next(index[j - 1]);
        }
        link(index, c, k);
    }
    repeated
}

// The number of the triangle that a lent index names across side i; 0 where it names none.
fn named(lent: &[u8], i: usize) -> usize
    requires { i < 3072 }
    ensures { result < 65536 }
{
    if lent.len() < 2 * i + 2 {
        return 0;
    }
    usize::from(u16::from_le_bytes([lent[2 * i], lent[2 * i + 1]]))
}

// The number of the side with this code in the triangle of a number; 0 where it has none, or there is no such triangle.
fn side_in(codes: &[u64], t: usize, code: u64) -> usize
    requires { t < 65536 }
    ensures { (o : ℕ) → result ≡ suc o → (o < length codes.now) × (get_or codes.now o 0 ≡ code) }
{
    if t == 0 {
        return 0;
    }
    if codes.len() < 3 * t {
        return 0;
    }
    if codes[3 * t - 3] == code {
        return 3 * t - 2;
    }
    if codes[3 * t - 2] == code {
        return 3 * t - 1;
    }
    if codes[3 * t - 1] == code {
        return 3 * t;
    }
    0
}

// The number of the side with this code: in the triangle that a lent index names across side i, or else along the chain; 0 where there is none.
fn reverse(index: &[u64], codes: &[u64], lent: &[u8], i: usize, code: u64) -> usize
    requires { (i < 3072) × (length codes.now ≤ 3072) × Within (length codes.now) code × LinkedTo codes.now index.now (length codes.now) }
    ensures { Distinct codes.now → result ≡ number_in code codes.now }
{
    let r = side_in(codes, named(lent, i), code);
    if r != 0 {
        return r;
    }
    table_sides::side_of(index, code)
}

// Lays down for each side the number of the side that is its reverse, looked for along the chains.
fn along_chains(index: &[u64], codes: &[u64], opposite: &mut [usize])
    requires { All (Within (length codes.now)) codes.now × (length codes.now ≤ 3072) × LinkedTo codes.now index.now (length codes.now) × (length opposite.old ≡ length codes.now) }
    ensures { Distinct codes.now → opposite.new ≡ turned_in codes.now }
{
    for (i, code) in codes.iter().enumerate() {
        opposite[i] = table_sides::side_of(index, *code % 4096 * 4096 + *code / 4096);
    }
}

// The same, looked for first where a lent index says. (One function over both by a closure was tried: what the call along the chains asks of it was not proved.)
fn by_index(index: &[u64], codes: &[u64], lent: &[u8], opposite: &mut [usize])
    requires { All (Within (length codes.now)) codes.now × (length codes.now ≤ 3072) × LinkedTo codes.now index.now (length codes.now) × (length opposite.old ≡ length codes.now) }
    ensures { Distinct codes.now → opposite.new ≡ turned_in codes.now }
{
    for (i, code) in codes.iter().enumerate() {
        opposite[i] = reverse(index, codes, lent, i, *code % 4096 * 4096 + *code / 4096);
    }
}

// Lays down for each side the number of the side that is its reverse. A lent index says where to look first, and changes nothing of what is found.
pub fn opposites(index: &[u64], codes: &[u64], lent: &[u8], opposite: &mut [usize])
    requires { All (Within (length codes.now)) codes.now × (length codes.now ≤ 3072) × LinkedTo codes.now index.now (length codes.now) × (length opposite.old ≡ length codes.now) }
    ensures { Distinct codes.now → opposite.new ≡ turned_in codes.now }
{
    if lent.len() == 0 {
        along_chains(index, codes, opposite);
    } else {
        by_index(index, codes, lent, opposite);
    }
}
