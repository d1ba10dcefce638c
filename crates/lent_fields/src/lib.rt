// The fields of lent bytes: unsigned numbers and doubles, in either byte order, and a double's pattern.
#![tactic(auto)]

ghost use Rattle.std.specs.Prelude.{◌≡◌, ◌+◌, ◌*◌, ◌^◌, ◌≤◌, ◌<◌, length};
ghost use Rattle.std.specs.Float.{binary64};
ghost use Rattle.std.specs.Float.Ieee.{of_bits, to_bits};
ghost use Rattle.lent_little.specs.Ordered.{number_of, field, remains, word_at, double_at};
ghost use Rattle.lent_little.specs.Places.{place_of};

// Where the byte of the weight 256 ^ (n - 1 - k) of n bytes stands.
fn place(little: bool, at: usize, n: usize, k: usize) -> usize
    requires { (k < n) × (at + n < 2 ^ 64) }
    ensures { (result ≡ place_of little at n k) × (result < at + n) }
{
    if little { at + (n - 1 - k) } else { at + k }
}

// The number of the n bytes at a place.
fn number(s: &[u8], at: usize, n: usize, little: bool) -> u64
    requires { (n ≤ 8) × (at + n ≤ length s.now) }
    ensures { (result ≡ number_of little (field s.now at n)) × (result < 2 ^ (8 * n)) }
{
    let mut v: u64 = 0;
    for k in 0..n {
        let i = place(little, at, n, k);
        v = v * 256 + u64::from(s[i]);
    }
    v
}

// The double of a pattern: every NaN pattern is the one NaN.
fn of_pattern(b: u64) -> f64
    ensures { result ≡ of_bits binary64 b }
{
    if 0x7ff0_0000_0000_0000 < b % 0x8000_0000_0000_0000 {
        0.0 / 0.0
    } else {
        f64::from_bits(b)
    }
}

// The pattern of a double: one pattern for the NaN.
pub fn pattern(x: f64) -> u64
    ensures { result ≡ to_bits binary64 x }
{
    if x == x {
        f64::to_bits(x)
    } else {
        0x7ff8_0000_0000_0000
    }
}

// The double of the 8 bytes at a place.
pub fn double(s: &[u8], at: usize, little: bool) -> f64
    requires { at + 8 ≤ length s.now }
    ensures { result ≡ double_at little s.now at }
{
    of_pattern(number(s, at, 8, little))
}

// The number of the 4 bytes at a place.
pub fn word(s: &[u8], at: usize, little: bool) -> u32
    requires { at + 4 ≤ length s.now }
    ensures { result ≡ word_at little s.now at }
{
    number(s, at, 4, little) as u32
}

// n bytes remain at a place.
pub fn remain(s: &[u8], at: usize, n: usize) -> bool
    ensures { result ≡ remains s.now at n }
{
    if at <= s.len() {
        n <= s.len() - at
    } else {
        false
    }
}
