// The candidates: operation lines by number, in the order of the list.
ghost use Rattle.std.specs.Prelude.{◌≡◌, ◌*◌, ◌<◌, ◌≤◌, IfSome};
ghost use Rattle.refusals.specs.Verdict.{Accepted};
ghost use Rattle.recipe.specs.declared.Recipe.{Recipe};
ghost use Rattle.recipe.specs.Rules.{check_recipe};
ghost use Rattle.install.specs.Candidates.{is_in_cell};
ghost use Rattle.install.specs.Search.{line_at, Named, Question, Ends, Onward, Looked, Next};

use crate::Mending;
use cell::{Cell, OPERATION, OperationLine};
use recipe::Recipe;
use refusals::search;

// What a look at a line says: it is a candidate, or which line is looked at next.
enum Look {
    Candidate,
    Past(usize),
}

// The line with the number.
#[tactic(auto, unfolding(crate::specs::Search::line_at))]
pub fn line_at(n: usize) -> OperationLine
    requires { n < 24576 }
    ensures { result ≡ line_at n }
{
    OperationLine {
        resource: (n / 4096) as u8,
        from: (n / 512 % 8) as u8,
        operation: (n / 8 % 64) as u8,
        to: (n % 8) as u8,
    }
}

// Which operations the recipe names: those of a do or of a test, not those at an end.
pub fn named_operations(recipe: &Recipe) -> [bool; 64]
    requires { check_recipe recipe.now ≡ Accepted }
    ensures { Named recipe.now result }
{
    let mut named = [false; 64];
    for n in 0..recipe.count {
        if recipe.kind[n] != recipe::END {
            named[recipe.op[n] as usize] = true;
        }
    }
    named
}

// Whether the cell has the operation line: the five comparisons are those of `is_operation` of specs/Candidates, in its order.
#[tactic(auto, unfolding(crate::specs::Candidates::is_in_cell, crate::specs::Candidates::is_there, crate::specs::Candidates::is_operation))]
fn is_in_cell(cell: &Cell, line: OperationLine) -> bool
    requires { cell.now.count ≤ 64 }
    ensures { result ≡ is_in_cell cell.now line }
{
    search::any_below(cell.count, |n| {
        cell.act[n] == OPERATION
            && cell.resource[n] == line.resource
            && cell.from[n] == line.from
            && cell.arg[n] == line.operation
            && cell.to[n] == line.to
    })
}

impl Mending<'_> {
    // Looks at the line with a number: numbers that share what shuts this one out are passed over with it.
    fn look_at(&self, n: usize) -> Look
        requires count_bound { self.now.cell.now.count ≤ 64 }
        requires n_bound { n < 24576 }
        ensures onward { Onward n result }
        ensures looked { (r : Recipe) → Question self.now.cell.now r self.now.sizes.now self.now.named → n < 4096 * self.now.sizes.now.resources → Looked self.now.cell.now r n result }
    {
        let line = line_at(n);
        let count = self.sizes.states[line.resource as usize];
        if count <= line.from as usize {
            Look::Past((n / 512 + 1) * 512)
        } else if !self.named[line.operation as usize] {
            Look::Past((n / 8 + 1) * 8)
        } else if count <= line.to as usize {
            Look::Past((n / 8 + 1) * 8)
        } else if is_in_cell(self.cell, line) {
            Look::Past(n + 1)
        } else {
            Look::Candidate
        }
    }

    // The next candidate from `from` on.
    pub fn next_candidate(&self, from: usize) -> Option<usize>
        requires count_bound { self.now.cell.now.count ≤ 64 }
        requires from_le_end { from ≤ self.now.end }
        requires ends { Ends self.now }
        ensures within { IfSome result (λ n. (from ≤ n) × (n < self.now.end)) }
        ensures next { (r : Recipe) → Question self.now.cell.now r self.now.sizes.now self.now.named → Next self.now.cell.now r from self.now.end result }
    {
        let mut n = from;
        // A look passes over one line, over eight or over 512, so this is no count.
        while n < self.end {
            match self.look_at(n) {
                Look::Candidate => return Some(n),
                Look::Past(next) => n = next,
            }
        }
        None
    }
}
