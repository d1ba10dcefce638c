// Input that is read into lent bytes until they are full, or until it ends.
#![tactic(auto)]

ghost use Rattle.std.specs.Prelude.{◌≡◌, ℕ, ◌≤◌, ◌<◌, length, take, IfOk, IfErr};
ghost use Rattle.std.specs.Io.KnownBytes.{Consumes, IsAtEnd};

use std::io;
use std::io::Read;

// Reads until the bytes are full or the input ends, and answers how many there are. Where it is known what the input is to give, they are the bytes that it was to give
// next, in their order; where they aren't full, it has ended; at an error those read before stand at the front. A while: how many bytes a call reads is up to the input.
pub fn read_full<R: Read>(input: &mut R, bytes: &mut [u8]) -> io::Result<usize>
    ensures within { IfOk result (λ n. n ≤ length bytes.new) }
    ensures as_long { length bytes.new ≡ length bytes.old }
    ensures read { IfOk result (λ n. Consumes (R.remaining input.old) (R.remaining input.new) (take n bytes.new)) }
    ensures full { IfOk result (λ n. n < length bytes.new → IsAtEnd (R.remaining input.new)) }
    ensures stopped { IfErr result (λ _. (n : ℕ) × (n ≤ length bytes.new) × Consumes (R.remaining input.old) (R.remaining input.new) (take n bytes.new)) }
{
    let mut n: usize = 0;
    while n < bytes.len() {
        let more = input.read(&mut bytes[n..])?;
        if more == 0 {
            return Ok(n);
        }
        n += more;
    }
    Ok(n)
}
