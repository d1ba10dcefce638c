// The code of a side of a table by its two corners, and the number of the side with a code, looked up along the chain of the corner at which it begins.
#![tactic(auto)]

ghost use Rattle.std.specs.Prelude.{◌≡◌, ◌+◌, ◌*◌, ◌/◌, ◌≤◌, ◌<◌, length, get_or};
ghost use Rattle.table_sides.specs.Chains.{next_in, code_in, head_in, Last, Chained};

// The code of an ordered pair of corners, by their places among the ascending ones.
pub fn code(u: usize, v: usize) -> u64
    requires { (u ≤ 4096) × (v ≤ 4096) }
    ensures { result ≡ u * 4096 + v }
{
    u as u64 * 4096 + v as u64
}

// What stands at a place of the chains: the number of the last side that begins at the corner there, the code of the side there, the number of the side
// before it that begins at the same corner, and whether no corner is inside it.
pub fn head(link: u64) -> usize
    ensures { result ≡ head_in link }
{
    (link / 68_719_476_736 % 4096) as usize
}

fn code_in(link: u64) -> u64
    ensures { result ≡ code_in link }
{
    link / 4096 % 16_777_216
}

pub fn next(link: u64) -> usize
    ensures { result ≡ next_in link }
{
    (link % 4096) as usize
}

// The number, counted from 1, of the last side with this code, along the chain of the corner at which it begins; 0 where there is none.
pub fn side_of(index: &[u64], code: u64) -> usize
    requires { Chained index.now × (code / 4096 < length index.now) }
    ensures { Last (λ j. code_in (get_or index.now j 0) ≡ code) (length index.now) result }
{
    let at = (code / 4096) as usize;
    let mut r = head(index[at]);
    // A while: the chain is followed.
    while 0 < r {
        if code_in(index[r - 1]) == code {
            return r;
        }
        r = next(index[r - 1]);
    }
    0
}
