// Text put into a lent buffer.
ghost use Rattle.std.specs.Prelude.{◌≡◌, [], ◌∷◌, ◌+◌, ◌<◌, ◌≤◌, length};
ghost use Rattle.printout.specs.Text.{last_digit, digits_of, field, move_line, refusal_line, Put};

// Puts a byte, and answers where it ends.
fn put_byte(text: &mut [u8], at: usize, byte: u8) -> usize
    requires { at < length text.old }
    ensures { Put text.old text.new at (byte ∷ []) result }
{
    text[at] = byte;
    at + 1
}

// Puts some bytes, and answers where they end.
fn put_bytes(text: &mut [u8], at: usize, bytes: &[u8]) -> usize
    requires { at + length bytes.now ≤ length text.old }
    ensures { Put text.old text.new at bytes.now result }
{
    buffers::put(text, at, bytes);
    at + bytes.len()
}

// The last digit of a number.
fn last_digit(n: u64) -> u8
    ensures { result ≡ last_digit n }
{
    48 + (n % 10) as u8
}

// Puts the digits of a number, the last `most` of them at most. By hand, into the lent text: `write!` and `format!` promise
// the bytes of a String alone, which is on the heap.
fn put_digits(text: &mut [u8], at: usize, n: u64, most: usize) -> usize
    requires { at + most ≤ length text.old }
    ensures { Put text.old text.new at (digits_of most n) result }
{
    if most == 0 {
        return at;
    }
    if n < 10 {
        return put_byte(text, at, last_digit(n));
    }
    let end = put_digits(text, at, n / 10, most - 1);
    put_byte(text, end, last_digit(n))
}

// Puts a number and the byte that ends it.
fn put_field(text: &mut [u8], at: usize, n: u64, last: u8) -> usize
    requires { at + 21 ≤ length text.old }
    ensures { Put text.old text.new at (field n last) result }
{
    let end = put_digits(text, at, n, 20);
    put_byte(text, end, last)
}

// Puts the line of a move.
pub fn put_move(text: &mut [u8], at: usize, position: u64, entry: u64, next: u64) -> usize
    requires { at + 64 ≤ length text.old }
    ensures { Put text.old text.new at (move_line position entry next) result }
{
    let first = put_field(text, at, position, b',');
    let second = put_field(text, first, entry, b',');
    put_field(text, second, next, b'\n')
}

// Puts the line of a refusal.
pub fn put_refusal(text: &mut [u8], at: usize, number: u8) -> usize
    requires { at + 64 ≤ length text.old }
    ensures { Put text.old text.new at (refusal_line number) result }
{
    let word = put_bytes(text, at, b"refused,");
    put_field(text, word, number as u64, b'\n')
}
