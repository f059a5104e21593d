// A number at the start of a text.
ghost use Rattle.std.specs.Prelude.{◌≡◌, ◌≤◌};
ghost use lib.ListN.{length};
ghost use Rattle.tables.specs.Numbers.{decimal};
ghost use Rattle.tables.specs.Reading.{leading, first_number, field_of};

use crate::Number;

// Judges the leading digits of the text, of which there are `length`, which write `value`.
fn judge(text: &[u8], length: usize, value: u32) -> Option<Number>
    requires { (length ≡ lib.ListN.length (leading text.now)) × (length ≤ 5) × (value ≡ decimal 0 (leading text.now)) }
    ensures { result ≡ first_number text.now }
{
    if length == 0 || 1 < length && text[0] == b'0' {
        return None;
    }
    Some(Number { length, value })
}

// The number at the start of the text.
fn read_number(text: &[u8]) -> Option<Number>
    ensures { result ≡ first_number text.now }
{
    let mut value: u32 = 0;
    for (i, digit) in text.iter().enumerate() {
        if !digit.is_ascii_digit() {
            return judge(text, i, value);
        }
        if i == 5 {
            return None;
        }
        value = value * 10 + u32::from(*digit - b'0');
    }
    judge(text, text.len(), value)
}

// The number at the start of the text that the byte `end` ends, with the length of both.
pub fn read_field(text: &[u8], end: u8) -> Option<Number>
    ensures { result ≡ field_of end text.now }
{
    let Number { length, value } = read_number(text)?;
    if length == text.len() || text[length] != end {
        return None;
    }
    Some(Number {
        length: length + 1,
        value,
    })
}
