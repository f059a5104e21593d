// Rules 7 and 8: the order of the points, and the lines that share one.
ghost use Rattle.std.specs.Prelude.{◌≡◌, not, ◌&&◌, ◌||◌, ℕ, ◌+◌, ◌<◌, ◌≤◌, eqb, leb, slice_index};
ghost use Rattle.refusals.specs.Search.{first_below};
ghost use Rattle.recipe.specs.Rules.{breaks_order, breaks_repeat, point_count};
ghost use Rattle.recipe.specs.Inner.{same_point};

use crate::{DO, Recipe};
use refusals::search;

// Whether a point may stand on the line after the point `last`. One more than a point may not fit a byte.
fn follows(point: u8, last: u8) -> bool
    ensures { result ≡ (eqb point last || eqb point (last + 1)) }
{
    point == last || point as usize == last as usize + 1
}

// Whether line n breaks rule 7.
#[tactic(auto, unfolding(crate::specs::Rules::breaks_order), using(crate::proofs::PointOrder::order_next))]
fn out_of_order(recipe: &Recipe, n: usize) -> bool
    requires { n < 64 }
    ensures { result ≡ breaks_order recipe.now.point n }
{
    if n == 0 {
        recipe.point[0] != 0
    } else {
        !follows(recipe.point[n], recipe.point[n - 1])
    }
}

// The first line that breaks rule 7, or the count.
pub fn first_out_of_order(recipe: &Recipe) -> usize
    requires { recipe.now.count ≤ 64 }
    ensures { result ≡ first_below (breaks_order recipe.now.point) recipe.now.count }
{
    search::first_below(recipe.count, |n| out_of_order(recipe, n))
}

// The number of points. Rule 7 has passed, so they count up from 0 and the last line has the greatest.
#[tactic(auto, using(crate::proofs::PointOrder::last_point))]
pub fn point_count(recipe: &Recipe) -> usize
    requires count_nonzero { (0 < recipe.now.count) × (recipe.now.count ≤ 64) }
    requires count_value { first_below (breaks_order recipe.now.point) recipe.now.count ≡ recipe.now.count }
    ensures { result ≡ point_count recipe.now.point recipe.now.count }
{
    recipe.point[recipe.count - 1] as usize + 1
}

// The first line of line n's point. Up to line n rule 7 has passed, so the lines of a point stand together.
pub fn point_start(recipe: &Recipe, n: usize) -> usize
    requires n_bound { n < 64 }
    requires n_value { first_below (breaks_order recipe.now.point) (n + 1) ≡ n + 1 }
    ensures { (result ≤ n) × ((k : ℕ) → k < n → same_point recipe.now.point n k ≡ leb result k) }
{
    for k in (0..n).rev() {
        if recipe.point[k] != recipe.point[n] {
            return k + 1;
        }
    }
    0
}

// Whether two lines of a point, by their kinds and their `then`, may not stand together.
fn clash(recipe: &Recipe, n: usize, k: usize) -> bool
    requires { (n < 64) × (k < 64) }
    ensures { result ≡ not (eqb (slice_index recipe.now.kind n) 1 && (eqb (slice_index recipe.now.kind k) 1 && eqb (slice_index recipe.now.then n) (slice_index recipe.now.then k))) }
{
    !(recipe.kind[n] == DO && recipe.kind[k] == DO && recipe.then[n] == recipe.then[k])
}

// Whether line n breaks rule 8. Only the lines from its point's first on can clash with it, and they are its repeats.
fn bad_repeat(recipe: &Recipe, n: usize) -> bool
    requires n_bound { n < 64 }
    requires n_value { first_below (breaks_order recipe.now.point) (n + 1) ≡ n + 1 }
    ensures { result ≡ breaks_repeat recipe.now.point recipe.now.kind recipe.now.then n }
{
    let start = point_start(recipe, n);
    (start..n).any(|k| clash(recipe, n, k)) || 4 <= n - start
}

// The first line that breaks rule 8, or the count.
#[tactic(auto, using(crate::proofs::PointOrder::ordered_to))]
pub fn first_bad_repeat(recipe: &Recipe) -> usize
    requires count_bound { recipe.now.count ≤ 64 }
    requires count_value { first_below (breaks_order recipe.now.point) recipe.now.count ≡ recipe.now.count }
    ensures { result ≡ first_below (breaks_repeat recipe.now.point recipe.now.kind recipe.now.then) recipe.now.count }
{
    search::first_below(recipe.count, |n| bad_repeat(recipe, n))
}
