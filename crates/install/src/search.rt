// The search for the lines that mend a cell, group by group.
ghost use Rattle.std.specs.Prelude.{◌≡◌, List, [], ◌∷◌, ◌++◌, ℕ, ◌+◌, ◌*◌, ◌<◌, ◌≤◌, length};
ghost use Rattle.cell.specs.declared.OperationLine.{OperationLine};
ghost use Rattle.marks.specs.Marks.{room};
ghost use Rattle.layers.specs.Moves.{span};
ghost use Rattle.install.specs.Order.{filled_with};
ghost use Rattle.install.specs.Search.{Question, Asked, SoFar, Standing, Behind, Tried};

use crate::{Mending, Progress, candidates};
use cell::{Cell, OperationLine};
use positions::Sizes;
use recipe::Recipe;

// Puts a line behind those that were found, if it fits, and counts it.
fn put_line(list: &mut [u8], found: usize, line: OperationLine) -> usize
    requires { found ≤ 24576 }
    ensures { (result ≡ found + 1) × ((buffer : List ℕ) (lines : List OperationLine) → found ≡ length lines → list.old ≡ filled_with lines buffer → list.new ≡ filled_with (lines ++ (line ∷ [])) buffer) }
{
    if list.len() / 4 <= found {
        return found + 1;
    }
    let bytes = [line.resource, line.from, line.operation, line.to];
    buffers::put(list, 4 * found, &bytes);
    found + 1
}

// How many candidates are tried behind a group that is decided: twice as many, or as many as fit; but after half of a group
// as many again, which are the other half.
fn next_size(at: Progress, most: usize) -> usize
    requires le_size { (1 ≤ at.size) × (at.size ≤ most) }
    requires most_bound { most ≤ 64 }
    ensures { (1 ≤ result) × (result ≤ most) }
{
    if at.halved {
        at.size
    } else {
        most.min(2 * at.size)
    }
}

// Where the search goes on behind a group that is decided.
fn behind(at: Progress, next: usize, found: usize, most: usize) -> Progress
    requires le_size { (1 ≤ at.size) × (at.size ≤ most) }
    requires most_bound { most ≤ 64 }
    ensures { Behind next found most result }
{
    Progress {
        next,
        size: next_size(at, most),
        halved: false,
        found,
    }
}

impl Mending<'_> {
    // Tries the next group: if it does not make the recipe acceptable, none of its lines does; else it is halved, or its one line is
    // listed.
    fn attempt(
        &self,
        at: Progress,
        table: &mut [u32],
        scratch: &mut [u8],
        list: &mut [u8],
    ) -> Progress
        requires question { Question self.now.cell.now self.now.recipe.now self.now.sizes.now self.now.named }
        requires standing { Standing self.now.cell.now self.now.end at }
        requires end_value { self.now.end ≡ 4096 * self.now.sizes.now.resources }
        requires next_lt_end { at.next < self.now.end }
        requires positions_in_bounds { self.now.sizes.now.positions ≤ length table.old }
        requires sizes_bound { span self.now.sizes.now ≤ room scratch.old }
        ensures { Tried self.now.cell.now self.now.recipe.now self.now.end at list.old result list.new }
    {
        let most = 64 - self.cell.count;
        let group = self.gather(at.next, at.size);
        if group.added == 0 {
            return behind(at, group.end, at.found, most);
        }
        if !planner::is_realisable(&group.cell, self.recipe, self.sizes, table, scratch) {
            return behind(at, group.end, at.found, most);
        }
        if 1 < group.added {
            return Progress {
                next: at.next,
                size: group.added / 2,
                halved: true,
                found: at.found,
            };
        }
        let found = put_line(list, at.found, candidates::line_at(group.last));
        behind(at, group.end, found, most)
    }
}

// Lists the lines that mend the cell: how many there are.
pub fn seek(
    cell: &Cell,
    recipe: &Recipe,
    sizes: &Sizes,
    table: &mut [u32],
    scratch: &mut [u8],
    list: &mut [u8],
) -> usize
    requires asked { Asked cell.now recipe.now sizes.now }
    requires positions_in_bounds { sizes.now.positions ≤ length table.old }
    requires sizes_bound { span sizes.now ≤ room scratch.old }
    ensures { (result ≤ 24576) × SoFar cell.now recipe.now list.old (4096 * sizes.now.resources) result list.new }
{
    let end = 4096 * sizes.resources;
    let mending = Mending {
        cell,
        recipe,
        sizes,
        named: candidates::named_operations(recipe),
        end,
    };
    let mut at = Progress {
        next: 0,
        size: 1,
        halved: false,
        found: 0,
    };
    // A turn goes on behind a group or halves it, so this is no count.
    while at.next < end {
        at = mending.attempt(at, table, scratch, list);
    }
    at.found
}
