// The lines of a recipe's point.
ghost use Rattle.std.specs.Prelude.{◌≡◌, ◌≤◌};
ghost use Rattle.refusals.specs.Search.{first_below, count_below, is_of};
ghost use Rattle.recipe.specs.Rules.{breaks_order};

use recipe::Recipe;
use refusals::search;

// The first line of a point, or the count.
#[tactic(auto, unfolding(refusals::specs::Search::is_of))]
pub fn first_line(recipe: &Recipe, point: u8) -> usize
    requires { recipe.now.count ≤ 64 }
    ensures { result ≡ first_below (is_of recipe.now.point point) recipe.now.count }
{
    search::first_below(recipe.count, |n| recipe.point[n] == point)
}

// How many lines a point has, from its first on. Rule 7 has passed, so they stand together.
#[tactic(auto, using(crate::proofs::PointLines::point_ends, refusals::proofs::Scan::first_le))]
pub fn line_count(recipe: &Recipe, point: u8, first: usize) -> usize
    requires count_bound { recipe.now.count ≤ 64 }
    requires count_value { first_below (breaks_order recipe.now.point) recipe.now.count ≡ recipe.now.count }
    requires first_value { first ≡ first_below (is_of recipe.now.point point) recipe.now.count }
    ensures { result ≡ count_below (is_of recipe.now.point point) recipe.now.count }
{
    search::first_below(recipe.count - first, |n| recipe.point[first + n] != point)
}
