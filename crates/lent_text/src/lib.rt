// The text of the listing: decimal numbers without idle zeros, one blank between fields, a line feed after each line.
// What is put into a text changes no byte before or behind it.
#![tactic(auto)]

ghost use Rattle.std.specs.Prelude.{[], ◌∷◌, ◌+◌, ◌^◌, ◌≤◌, ◌<◌, pos, length};
ghost use Rattle.lent_text.specs.Text.{digits, decimal, line_of};
ghost use Rattle.lent_text.specs.Putting.{Put};

// Puts one byte behind the first `at` bytes of the text.
fn put(text: &mut [u8], at: usize, byte: u8) -> usize
    requires { at < length text.old }
    ensures { Put at (byte ∷ []) text.old result text.new }
{
    text[at] = byte;
    at + 1
}

// Puts a word behind the first `at` bytes of the text.
pub fn put_word(text: &mut [u8], at: usize, word: &[u8]) -> usize
    requires { at + length word.now ≤ length text.old }
    ensures { Put at word.now text.old result text.new }
{
    let end = at + word.len();
    text[at..end].copy_from_slice(word);
    end
}

// Puts the digits of a number, so many at most: those of its tenth, and then its last.
fn put_digits(text: &mut [u8], at: usize, n: u64, most: usize) -> usize
    requires { (1 ≤ most) × (at + most ≤ length text.old) × (n < 10 ^ most) }
    ensures { (result ≤ at + most) × Put at (digits most n) text.old result text.new }
{
    if n <= 9 {
        return put(text, at, 48 + n as u8);
    }
    let next = put_digits(text, at, n / 10, most - 1);
    put(text, next, 48 + (n % 10) as u8)
}

// Puts a number in decimal behind the first `at` bytes of the text.
fn put_number(text: &mut [u8], at: usize, n: u64) -> usize
    requires { at + 20 ≤ length text.old }
    ensures { (result ≤ at + 20) × Put at (decimal n) text.old result text.new }
{
    put_digits(text, at, n, 20)
}

// Puts a line behind the first `at` bytes of the text: a word and two numbers.
pub fn put_line(text: &mut [u8], at: usize, word: &[u8], a: u64, b: u64) -> usize
    requires { at + length word.now + 43 ≤ length text.old }
    ensures { (result ≤ at + length word.now + 43) × Put at (line_of word.now (pos a) (pos b)) text.old result text.new }
{
    let behind = put_word(text, at, word);
    let first = put(text, behind, 32);
    let last = put_number(text, first, a);
    let second = put(text, last, 32);
    let end = put_number(text, second, b);
    put(text, end, 10)
}
