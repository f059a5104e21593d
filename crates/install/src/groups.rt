// Groups of candidates, added behind the lines of a cell: where a group does not make the recipe acceptable, none of its lines does.
ghost use Rattle.std.specs.Prelude.{◌+◌, ◌<◌, ◌≤◌};
ghost use Rattle.recipe.specs.declared.Recipe.{Recipe};
ghost use Rattle.install.specs.Search.{Question, Ends, GroupOf};

use crate::{Group, Mending, candidates};

impl Mending<'_> {
    // The next candidates from `from` on, as many as the size or as there are.
    pub fn gather(&self, from: usize, size: usize) -> Group
        requires size_bound { self.now.cell.now.count + size ≤ 64 }
        requires le_size { (1 ≤ size) × (from < self.now.end) }
        requires ends { Ends self.now }
        ensures { (r : Recipe) → Question self.now.cell.now r self.now.sizes.now self.now.named → GroupOf self.now.cell.now r from self.now.end size result }
    {
        let mut longer = *self.cell;
        let mut next = from;
        let mut last = from;
        for added in 0..size {
            let Some(candidate) = self.next_candidate(next) else {
                return Group {
                    cell: longer,
                    added,
                    last,
                    end: self.end,
                };
            };
            longer = cell::longer::with_line(longer, candidates::line_at(candidate));
            last = candidate;
            next = candidate + 1;
        }
        Group {
            cell: longer,
            added: size,
            last,
            end: next,
        }
    }
}
