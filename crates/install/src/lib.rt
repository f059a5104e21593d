// Which process to install: the operation lines of which each alone would make a recipe acceptable.
#![tactic(auto)]

mod candidates;
mod groups;
mod search;

ghost use Rattle.install.specs.Call.{InstallCall, listing_of};

use cell::Cell;
use positions::Sizes;
use recipe::Recipe;
use refusals::{Broken, Refusal};

// What every step of a search is given: the cell and the recipe with their sizes, which operations the recipe names, and the number
// behind the last line.
#[derive(Clone, Copy)]
struct Mending<'a> {
    pub cell: &'a Cell,
    pub recipe: &'a Recipe,
    pub sizes: &'a Sizes,
    pub named: [bool; 64],
    pub end: usize,
}

// Candidates added behind the lines of a cell: how many, the number of the last, and where the next group begins.
// Where `added` is 0, `last` counts for nothing, as `GroupOf` of specs/Search says.
#[derive(Clone, Copy)]
pub struct Group {
    pub cell: Cell,
    pub added: usize,
    pub last: usize,
    pub end: usize,
}

// Where a search stands: the number of the first line that is not decided, how many candidates are tried next, whether these are
// half of a group that was tried before, and how many lines were found.
#[derive(Clone, Copy)]
pub struct Progress {
    pub next: usize,
    pub size: usize,
    pub halved: bool,
    pub found: usize,
}

// Lists the lines of which each alone makes the recipe acceptable, whatever is handed in, or says which rule refuses it. Answers how many
// lines do, of which the list may have fewer.
pub fn install(
    cell: Cell,
    recipe: Recipe,
    table: &mut [u32],
    scratch: &mut [u8],
    list: &mut [u8],
) -> Result<usize, Broken>
    ensures { InstallCall cell recipe table.old scratch.old list.old table.new scratch.new list.new (listing_of result) }
{
    positions::check_records(cell, recipe)?;
    let sizes = positions::measure(cell, recipe);
    planner::check_call(recipe, sizes, table.len(), scratch.len())?;
    refusals::no_line(Refusal::FullCell, 64 <= cell.count)?;
    if planner::is_realisable(&cell, &recipe, &sizes, table, scratch) {
        return Ok(0);
    }
    Ok(search::seek(&cell, &recipe, &sizes, table, scratch, list))
}
