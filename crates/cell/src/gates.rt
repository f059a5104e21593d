// Rule 23: each act 4 line has an act 1 line of the same resource, from and arg, and no earlier act 4 line has these.
ghost use Rattle.std.specs.Prelude.{◌≡◌, ◌<◌, ◌≤◌};
ghost use Rattle.refusals.specs.Search.{first_below, any_below};
ghost use Rattle.cell.specs.Rules.{alike, stray};

use crate::{Cell, GATE, OPERATION};
use refusals::search;

// Whether line k has the wanted act, and the resource, from and arg of line i, each compared as `alike` does.
#[tactic(auto, unfolding(crate::specs::Rules::alike))]
fn is_alike(cell: &Cell, wanted: u8, i: usize, k: usize) -> bool
    requires i_bound { i < 64 }
    requires k_bound { k < 64 }
    ensures { result ≡ alike cell.now.resource cell.now.from cell.now.act cell.now.arg wanted i k }
{
    cell.act[k] == wanted
        && cell.resource[k] == cell.resource[i]
        && cell.from[k] == cell.from[i]
        && cell.arg[k] == cell.arg[i]
}

// The first line before `end` that has the wanted act, and the resource, from and arg of this line; or `end`.
pub fn find_alike(cell: &Cell, wanted: u8, line: usize, end: usize) -> usize
    requires end_bound { end ≤ 64 }
    requires line_bound { line < 64 }
    ensures { result ≡ first_below (alike cell.now.resource cell.now.from cell.now.act cell.now.arg wanted line) end }
{
    search::first_below(end, |k| is_alike(cell, wanted, line, k))
}

// Whether there is such a line.
fn has_alike(cell: &Cell, wanted: u8, line: usize, end: usize) -> bool
    requires end_bound { end ≤ 64 }
    requires line_bound { line < 64 }
    ensures { result ≡ any_below (alike cell.now.resource cell.now.from cell.now.act cell.now.arg wanted line) end }
{
    search::any_below(end, |k| is_alike(cell, wanted, line, k))
}

// Whether a line is an act 4 line that has no act 1 line, or is the later one of a pair.
#[tactic(auto, unfolding(crate::specs::Rules::stray))]
fn is_stray(cell: &Cell, line: usize) -> bool
    requires count_bound { cell.now.count ≤ 64 }
    requires line_bound { line < 64 }
    ensures { result ≡ stray cell.now.resource cell.now.from cell.now.act cell.now.arg cell.now.count line }
{
    cell.act[line] == GATE
        && (!has_alike(cell, OPERATION, line, cell.count) || has_alike(cell, GATE, line, line))
}

// The first line that breaks rule 23, or the count. Where there is no act 4 line, only the acts are looked at.
pub fn first_stray(cell: &Cell) -> usize
    requires { cell.now.count ≤ 64 }
    ensures { result ≡ first_below (stray cell.now.resource cell.now.from cell.now.act cell.now.arg cell.now.count) cell.now.count }
{
    search::first_below(cell.count, |line| is_stray(cell, line))
}
