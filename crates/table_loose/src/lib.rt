// Pairs of corners that come one by one and cancel: a pair is open until its reverse comes.
#![tactic(auto)]

ghost use Rattle.std.specs.Prelude.{◌≡◌, MatchOption, ℕ, ◌+◌, ◌≤◌, ◌<◌, length, get_or, take};
ghost use Rattle.whole.specs.Tests.{Told};
ghost use Rattle.plane.specs.Keys.{pairs};
ghost use Rattle.table_loose.specs.Loose.{way, Came, WithoutTo, WithTo};

// u is none of the numbers. All are looked at, so that a processor compares several at once.
fn is_without(us: &[u64], u: u64) -> bool
    ensures { Told result (WithoutTo us.now u (length us.now)) (WithTo us.now u (length us.now)) }
{
    let mut without = true;
    for x in us {
        if *x == u {
            without = false;
        }
    }
    without
}

// The place of the pair (u, v) among the first n pairs of two lists. The latest are looked at first, and 32 without u are passed over.
fn place_of(us: &[u64], vs: &[u64], n: usize, u: u64, v: u64) -> Option<usize>
    requires { (n ≤ length us.now) × (n ≤ length vs.now) }
    ensures { MatchOption result ((j : ℕ) → j < n → get_or us.now j 0 ≡ u → get_or vs.now j 0 ≡ v → ⊥)
        (λ k. (k < n) × (get_or us.now k 0 ≡ u) × (get_or vs.now k 0 ≡ v)) }
{
    let mut k = n;
    // A while: it goes down by 32 or by 1.
    while 0 < k {
        if k % 32 == 0 && is_without(&us[k - 32..k], u) {
            k -= 32;
        } else {
            k -= 1;
            if us[k] == u && vs[k] == v {
                return Some(k);
            }
        }
    }
    None
}

// The pair (u, v) comes to the first n pairs of two lists, which are open: where its reverse is one of them that is taken out, and the last one moves into its
// place; else the pair is put behind them. How many are open then.
pub fn come(us: &mut [u64], vs: &mut [u64], n: usize, u: u64, v: u64) -> usize
    requires { (n < length us.old) × (n < length vs.old) }
    ensures { (result ≤ n + 1)
        × Came (way u v) (pairs (take n us.old) (take n vs.old)) (pairs (take result us.new) (take result vs.new)) }
{
    if u == v {
        return n;
    }
    match place_of(us, vs, n, v, u) {
        None => {
            us[n] = u;
            vs[n] = v;
            n + 1
        }
        Some(k) => {
            us[k] = us[n - 1];
            vs[k] = vs[n - 1];
            n - 1
        }
    }
}
