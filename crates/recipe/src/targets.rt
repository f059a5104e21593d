// Rule 12: the points to which a line leads.
ghost use Rattle.std.specs.Prelude.{◌≡◌, ◌<◌, ◌≤◌};
ghost use Rattle.refusals.specs.Search.{first_below};
ghost use Rattle.recipe.specs.Inner.{breaks_target};

use crate::{DO, Recipe, TEST};
use refusals::search;

// Whether line n leads to a point that isn't there. An end leads nowhere.
#[tactic(auto, unfolding(crate::specs::Rules::leads_out))]
fn leads_out(recipe: &Recipe, points: usize, n: usize) -> bool
    requires { n < 64 }
    ensures { result ≡ breaks_target points recipe.now.kind recipe.now.then recipe.now.otherwise n }
{
    let then = recipe.then[n] as usize;
    let otherwise = recipe.otherwise[n] as usize;
    match recipe.kind[n] {
        DO => points <= then,
        TEST => points <= then || points <= otherwise,
        _ => false,
    }
}

// The first line that breaks rule 12, or the count.
pub fn first_leading_out(recipe: &Recipe, points: usize) -> usize
    requires { recipe.now.count ≤ 64 }
    ensures { result ≡ first_below (breaks_target points recipe.now.kind recipe.now.then recipe.now.otherwise) recipe.now.count }
{
    search::first_below(recipe.count, |n| leads_out(recipe, points, n))
}
