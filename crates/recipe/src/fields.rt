// Rules 9 and 10: the fields that a line's kind leaves unused, and the parts that it must name.
ghost use Rattle.std.specs.Prelude.{◌≡◌, ◌<◌, ◌≤◌};
ghost use Rattle.refusals.specs.Search.{first_below};
ghost use Rattle.recipe.specs.Rules.{breaks_unused};
ghost use Rattle.recipe.specs.Inner.{breaks_parts};

use crate::{DO, END, Recipe, TEST};
use refusals::search;

// Whether a field that line n's kind leaves unused isn't 0.
#[tactic(auto, unfolding(crate::specs::Rules::breaks_unused, crate::specs::Rules::has_unused))]
fn has_unused(recipe: &Recipe, n: usize) -> bool
    requires { n < 64 }
    ensures { result ≡ breaks_unused recipe.now.kind recipe.now.op recipe.now.takes recipe.now.gives recipe.now.then recipe.now.otherwise n }
{
    match recipe.kind[n] {
        END => {
            recipe.op[n] != 0
                || recipe.takes[n] != 0
                || recipe.gives[n] != 0
                || recipe.then[n] != 0
                || recipe.otherwise[n] != 0
        }
        DO => recipe.otherwise[n] != 0,
        TEST => recipe.gives[n] != 0,
        _ => false,
    }
}

// The first line that breaks rule 9, or the count.
pub fn first_unused(recipe: &Recipe) -> usize
    requires { recipe.now.count ≤ 64 }
    ensures { result ≡ first_below (breaks_unused recipe.now.kind recipe.now.op recipe.now.takes recipe.now.gives recipe.now.then recipe.now.otherwise) recipe.now.count }
{
    search::first_below(recipe.count, |n| has_unused(recipe, n))
}

// Whether line n, a test or a do, names none of the parts that it must.
#[tactic(auto, unfolding(crate::specs::Rules::lacks_parts))]
fn lacks_parts(recipe: &Recipe, n: usize) -> bool
    requires { n < 64 }
    ensures { result ≡ breaks_parts recipe.now.kind recipe.now.takes recipe.now.gives n }
{
    match recipe.kind[n] {
        DO => recipe.takes[n] == 0 && recipe.gives[n] == 0,
        TEST => recipe.takes[n] == 0,
        _ => false,
    }
}

// The first line that breaks rule 10, or the count.
pub fn first_without_parts(recipe: &Recipe) -> usize
    requires { recipe.now.count ≤ 64 }
    ensures { result ≡ first_below (breaks_parts recipe.now.kind recipe.now.takes recipe.now.gives) recipe.now.count }
{
    search::first_below(recipe.count, |n| lacks_parts(recipe, n))
}
