// Rule 5: the resources from 0 to the greatest each have a line.
ghost use Rattle.std.specs.Prelude.{◌≡◌, ◌≤◌};
ghost use Rattle.refusals.specs.Search.{any_below, is_of};
ghost use Rattle.cell.specs.Rules.{gap, greatest_resource};

use crate::Cell;
use refusals::search;

// The greatest resource number of the lines.
#[tactic(auto, unfolding(crate::specs::Rules::greatest_resource, refusals::specs::Search::greatest_below))]
pub fn greatest(cell: &Cell) -> u8
    requires { cell.now.count ≤ 64 }
    ensures { result ≡ greatest_resource cell.now.resource cell.now.count }
{
    let mut most = 0;
    for i in 0..cell.count {
        most = cell.resource[i].max(most);
    }
    most
}

// Whether some line is of resource k.
#[tactic(auto, unfolding(refusals::specs::Search::is_of))]
fn has_line(cell: &Cell, k: usize) -> bool
    requires { cell.now.count ≤ 64 }
    ensures { result ≡ any_below (is_of cell.now.resource k) cell.now.count }
{
    search::any_below(cell.count, |i| cell.resource[i] as usize == k)
}

// Whether a resource below the greatest has no line.
#[tactic(auto, unfolding(crate::specs::Rules::gap, crate::specs::Rules::has_no_line))]
pub fn has_gap(cell: &Cell) -> bool
    requires { cell.now.count ≤ 64 }
    ensures { result ≡ gap cell.now.resource cell.now.count }
{
    search::any_below(greatest(cell) as usize, |k| !has_line(cell, k))
}
