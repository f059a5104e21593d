// Rule 11: the parts that two lines of a point both take, or both give.
ghost use Rattle.std.specs.Prelude.{◌≡◌, ◌||◌, ◌+◌, ◌<◌, ◌≤◌};
ghost use Rattle.refusals.specs.Search.{first_below};
ghost use Rattle.recipe.specs.Rules.{common, breaks_order};
ghost use Rattle.recipe.specs.Inner.{breaks_common};

use crate::{Recipe, points};
use refusals::search;

// Whether two sums have a part in common.
#[tactic(auto, using(crate::proofs::CommonParts::common_and))]
fn common(a: u8, b: u8) -> bool
    ensures { result ≡ common a b }
{
    a & b != 0
}

// Whether line n breaks rule 11 with an earlier line, which is one of its point.
fn shares_before(recipe: &Recipe, n: usize) -> bool
    requires n_bound { n < 64 }
    requires n_value { first_below (breaks_order recipe.now.point) (n + 1) ≡ n + 1 }
    ensures { result ≡ breaks_common recipe.now.point recipe.now.takes recipe.now.gives n }
{
    (points::point_start(recipe, n)..n).any(|k| {
        common(recipe.takes[n], recipe.takes[k]) || common(recipe.gives[n], recipe.gives[k])
    })
}

// The first line that breaks rule 11, or the count.
#[tactic(auto, using(crate::proofs::PointOrder::ordered_to))]
pub fn first_common(recipe: &Recipe) -> usize
    requires count_bound { recipe.now.count ≤ 64 }
    requires count_value { first_below (breaks_order recipe.now.point) recipe.now.count ≡ recipe.now.count }
    ensures { result ≡ first_below (breaks_common recipe.now.point recipe.now.takes recipe.now.gives) recipe.now.count }
{
    search::first_below(recipe.count, |n| shares_before(recipe, n))
}
