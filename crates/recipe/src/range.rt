// Rule 4: the ranges of a recipe line's numbers.
ghost use Rattle.std.specs.Prelude.{◌≡◌, ◌<◌, ◌≤◌};
ghost use Rattle.refusals.specs.Search.{first_below};
ghost use Rattle.recipe.specs.Rules.{leaves_range};

use crate::Recipe;
use refusals::search;

// Whether a number of line n leaves its range; a byte can't leave that of takes and gives.
#[tactic(auto, unfolding(crate::specs::Rules::leaves_range, crate::specs::Rules::in_range))]
fn leaves_range(recipe: &Recipe, n: usize) -> bool
    requires { n < 64 }
    ensures { result ≡ leaves_range recipe.now.point recipe.now.kind recipe.now.op recipe.now.takes recipe.now.gives recipe.now.then recipe.now.otherwise n }
{
    15 < recipe.point[n]
        || 2 < recipe.kind[n]
        || 63 < recipe.op[n]
        || 15 < recipe.then[n]
        || 15 < recipe.otherwise[n]
}

// The first line of which a number leaves its range, or the count.
pub fn first_out_of_range(recipe: &Recipe) -> usize
    requires { recipe.now.count ≤ 64 }
    ensures { result ≡ first_below (leaves_range recipe.now.point recipe.now.kind recipe.now.op recipe.now.takes recipe.now.gives recipe.now.then recipe.now.otherwise) recipe.now.count }
{
    search::first_below(recipe.count, |n| leaves_range(recipe, n))
}
