// What `walk` prints: a line for each byte of standard input (turn), put into a lent buffer (text).
#![tactic(auto)]

pub mod text;
pub mod turn;

use run::Run;

// What bytes of standard input are answered with: how many bytes of text, whether the walk goes on,
// and the run afterwards. These stand beside one another, as in `Told`, `Answered` and `Answers`: a byte that
// ends the walk has a text and a run too.
#[derive(Clone, Copy)]
pub struct Answer {
    pub length: usize,
    pub more: bool,
    pub run: Run,
}
