// Rule 6: each in and each out line has a partner on its port.
ghost use Rattle.std.specs.Prelude.{◌≡◌, ◌+◌, ◌*◌, ◌%◌, ◌<◌, ◌≤◌};
ghost use Rattle.refusals.specs.Search.{first_below, any_below};
ghost use Rattle.cell.specs.Inner.{place, Starts};
ghost use Rattle.cell.specs.Rules.{other_act, partner, unpaired};

use crate::{Cell, IN, OUT};
use refusals::search;

// The act that answers an act: an out an in, an in an out; no act answers the others, for which 255 stands as in specs/Rules.
#[tactic(auto, unfolding(crate::specs::Rules::other_act))]
fn other_act(act: u8) -> u8
    ensures { result ≡ other_act act }
{
    match act {
        IN => OUT,
        OUT => IN,
        _ => 255,
    }
}

// Whether line k is a partner of line i.
#[tactic(auto, unfolding(crate::specs::Rules::partner))]
fn is_partner(cell: &Cell, i: usize, k: usize) -> bool
    requires i_bound { i < 64 }
    requires k_bound { k < 64 }
    ensures { result ≡ partner cell.now.resource cell.now.act cell.now.arg i k }
{
    cell.act[k] == other_act(cell.act[i])
        && cell.arg[k] == cell.arg[i]
        && cell.resource[k] != cell.resource[i]
}

// The place of an act on a port, one of 256. Within the ranges of rule 4 each has its own, but that acts 0 and 4 share theirs,
// where no partner is sought.
fn place_of(act: u8, arg: u8) -> usize
    ensures { result ≡ place act arg }
{
    act as usize % 4 * 64 + arg as usize % 64
}

// For each place the first line that has it; 0 where none has.
fn first_lines(cell: &Cell) -> [u8; 256]
    requires { cell.now.count ≤ 64 }
    ensures { Starts cell.now.act cell.now.arg cell.now.count 0 result }
{
    let mut first = [0u8; 256];
    for n in (0..cell.count).rev() {
        let place = place_of(cell.act[n], cell.arg[n]);
        first[place] = n as u8;
    }
    first
}

// Whether some line is a partner of line i. All of these have the same place, so the search begins at the first line that
// has it.
fn has_partner(cell: &Cell, first: &[u8; 256], i: usize) -> bool
    requires count_bound { cell.now.count ≤ 64 }
    requires i_bound { i < 64 }
    requires first_value { Starts cell.now.act cell.now.arg cell.now.count 0 first.now }
    ensures { result ≡ any_below (partner cell.now.resource cell.now.act cell.now.arg i) cell.now.count }
{
    let start = first[place_of(other_act(cell.act[i]), cell.arg[i])] as usize;
    for k in start..cell.count {
        if is_partner(cell, i, k) {
            return true;
        }
    }
    false
}

// Whether a line is an in or an out without a partner.
#[tactic(auto, unfolding(crate::specs::Rules::unpaired))]
fn is_unpaired(cell: &Cell, first: &[u8; 256], i: usize) -> bool
    requires count_bound { cell.now.count ≤ 64 }
    requires i_bound { i < 64 }
    requires first_value { Starts cell.now.act cell.now.arg cell.now.count 0 first.now }
    ensures { result ≡ unpaired cell.now.resource cell.now.act cell.now.arg cell.now.count i }
{
    (cell.act[i] == IN || cell.act[i] == OUT) && !has_partner(cell, first, i)
}

// The first in or out line without a partner, or the count.
pub fn first_unpaired(cell: &Cell) -> usize
    requires { cell.now.count ≤ 64 }
    ensures { result ≡ first_below (unpaired cell.now.resource cell.now.act cell.now.arg cell.now.count) cell.now.count }
{
    let first = first_lines(cell);
    search::first_below(cell.count, |i| is_unpaired(cell, &first, i))
}
