// The whole root of a number: the largest whole number whose square is at most the number.
#![tactic(auto)]

ghost use Rattle.std.specs.Prelude.{◌≡◌, ◌^◌, ◌<◌};
ghost use Rattle.whole_root.specs.Root.{root};

// The whole root of n, by Newton's iteration: the guess starts at a power of two whose square is above n, and while its square is above n it becomes the mean
// of itself and n divided by it, which is smaller, and still at least the root.
pub fn root(n: u64) -> u64
    requires { n < 2 ^ 62 }
    ensures { result ≡ root n }
{
    let mut r = 1u64 << ((65 - u64::leading_zeros(n)) / 2);
    // A while: Newton's iteration, which ends where the square is above n no more.
    while n < r * r {
        r = (r + n / r) / 2;
    }
    r
}
