// A value line at the start of a text: the rest of a file from where the line before it ended.
ghost use Rattle.std.specs.Prelude.{◌≡◌, ◌<◌, ◌≤◌};
ghost use Rattle.tables.specs.Reading.{line_of};

use crate::{Line, digits};

// The line of k numbers at the start of the text.
pub fn read_line(text: &[u8], k: usize) -> Option<Line>
    requires { (0 < k) × (k ≤ 7) }
    ensures { result ≡ line_of k text.now }
{
    let mut values = [0u32; 7];
    let mut at = 0;
    for j in 0..k - 1 {
        let field = digits::read_field(&text[at..], b',')?;
        values[j] = field.value;
        at += field.length;
    }
    let last = digits::read_field(&text[at..], b'\n')?;
    values[k - 1] = last.value;
    Some(Line {
        length: at + last.length,
        values,
    })
}
