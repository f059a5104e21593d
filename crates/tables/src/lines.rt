// The lines of a file, each found from where the line before it ended.
ghost use Rattle.std.specs.Prelude.{◌≡◌, ◌≤◌, length};
ghost use Rattle.tables.specs.Lines.{shown_line};
ghost use Rattle.tables.specs.Reading.{NextLine, Found, up_to};

use crate::Span;

// How many bytes of the text stand before its first byte 10.
fn line_length(text: &[u8]) -> usize
    ensures { result ≡ length (up_to 10 text.now) }
{
    text.iter()
        .position(|byte| *byte == b'\n')
        .unwrap_or(text.len())
}

// Where the line after the one at `at` starts: the file's end where that one is the last.
pub fn next_line(file: &[u8], at: usize) -> usize
    requires { at ≤ length file.now }
    ensures { NextLine file.now at result }
{
    let end = at + line_length(&file[at..]);
    if end < file.len() { end + 1 } else { end }
}

// Where value line n lies, if it is there. The search stops at the file's end, however large n is.
pub fn find_line(file: &[u8], n: usize) -> Option<Span>
    ensures { Found file.now n result }
{
    let mut at = next_line(file, 0);
    for _ in 0..n {
        if at == file.len() {
            return None;
        }
        at = next_line(file, at);
    }
    let length = line_length(&file[at..]);
    if length == file.len() - at {
        return None;
    }
    Some(Span { start: at, length })
}

// Value line n as the bytes of the file itself, without byte 10; empty if there is none.
pub fn show_line(file: &[u8], n: usize) -> &[u8]
    ensures { result.now ≡ shown_line file.now n }
{
    match find_line(file, n) {
        Some(Span { start, length }) => &file[start..start + length],
        None => &[],
    }
}
