// Rule 4: the ranges of a cell line's numbers.
ghost use Rattle.std.specs.Prelude.{◌≡◌, ◌≤◌};
ghost use Rattle.refusals.specs.Search.{first_below};
ghost use Rattle.cell.specs.Rules.{in_range, leaves_range};

use crate::Cell;
use refusals::search;

// Whether the numbers of a line are each in its range.
#[tactic(auto, unfolding(crate::specs::Rules::in_range))]
fn in_range(resource: u8, from: u8, act: u8, arg: u8, to: u8) -> bool
    ensures { result ≡ in_range resource from act arg to }
{
    resource <= 5 && from <= 7 && act <= 4 && arg <= 63 && to <= 7
}

// The first line of which a number leaves its range, or the count.
#[tactic(auto, unfolding(crate::specs::Rules::leaves_range))]
pub fn first_out_of_range(cell: &Cell) -> usize
    requires { cell.now.count ≤ 64 }
    ensures { result ≡ first_below (leaves_range cell.now.resource cell.now.from cell.now.act cell.now.arg cell.now.to) cell.now.count }
{
    search::first_below(cell.count, |n| {
        !in_range(
            cell.resource[n],
            cell.from[n],
            cell.act[n],
            cell.arg[n],
            cell.to[n],
        )
    })
}
