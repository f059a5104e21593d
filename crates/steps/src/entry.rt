// The kind and the letters of an entry.
ghost use Rattle.std.specs.Prelude.{◌≡◌, ◌<◌, ◌≤◌};
ghost use Rattle.steps.specs.Entry.{entry_kind, letter, unused};
ghost use Rattle.steps.specs.Kinds.{IsNumbered};

use refusals::search;

// What an entry's kind counts: the letters are below it.
const KIND: u32 = 1 << 24;

// An end's entry, which uses no letter.
pub const END: u32 = 4 * KIND;

// What an entry of the kind is. No other is a move of a do or a test.
#[derive(Clone, Copy)]
pub enum EntryKind {
    Internal,
    Transfer,
    Carry,
    Other,
}

// The kind's number, whatever it is.
#[tactic(auto, unfolding(crate::specs::Entry::entry_kind))]
pub fn kind(entry: u32) -> u32
    ensures { result ≡ entry_kind entry }
{
    entry / KIND
}

// What the entry is.
pub fn kind_of(entry: u32) -> EntryKind
    ensures { IsNumbered result (entry_kind entry) }
{
    match kind(entry) {
        1 => EntryKind::Internal,
        2 => EntryKind::Transfer,
        3 => EntryKind::Carry,
        _ => EntryKind::Other,
    }
}

// Letter j: a, b, c or d, of six bits each.
pub fn letter(entry: u32, j: usize) -> usize
    requires { j < 4 }
    ensures { (result ≡ letter entry j) × (result < 64) }
{
    (entry >> (6 * j) & 63) as usize
}

// Whether the letters from letter n on are 0.
#[tactic(auto, unfolding(crate::specs::Entry::unused))]
pub fn is_unused(entry: u32, n: usize) -> bool
    requires { n ≤ 4 }
    ensures { result ≡ unused entry n }
{
    search::all_below(4, |j| j < n || letter(entry, j) == 0)
}
