// The numbers of a recipe file that passed rules 1 and 2, read into a record.
ghost use Rattle.std.specs.Prelude.{◌≡◌, List, ◌∷◌, ℕ, ◌<◌, ◌≤◌, length};
ghost use Rattle.refusals.specs.Verdict.{first_refusal, found_if};
ghost use Rattle.tables.specs.Lines.{value_lines};
ghost use Rattle.tables.specs.Reading.{Kept};
ghost use Rattle.recipe.specs.Reader.{recipe_of};
ghost use Rattle.recipe.specs.Inner.{after_range};
ghost use Rattle.recipe.specs.Rules.{rule4, check_recipe};

use crate::Recipe;
use refusals::{Broken, Refusal};
use tables::field;

// Rule 4 and the rest, over the numbers that rule 2 kept: each field as far as those before it are in range.
fn store_lines(numbers: &[u32; 448], count: usize) -> Result<Recipe, Broken>
    requires { (0 < count) × (count ≤ 64) }
    ensures { (file : List ℕ) → count ≡ length (value_lines file) → Kept 7 file count numbers.now → result ≡ found_if (first_refusal (rule4 (recipe_of file) ∷ after_range (recipe_of file))) (recipe_of file) }
{
    let points = field::column(numbers, count, 0, 0, 15);
    let kinds = field::column(numbers, points.lines, 1, 0, 2);
    let ops = field::column(numbers, kinds.lines, 2, 0, 63);
    let taken = field::column(numbers, ops.lines, 3, 0, 255);
    let given = field::column(numbers, taken.lines, 4, 0, 255);
    let thens = field::column(numbers, given.lines, 5, 0, 15);
    let others = field::column(numbers, thens.lines, 6, 0, 15);
    refusals::at_line(Refusal::Range, others.lines, count)?;
    // An array of another value goes into a literal by a local.
    let point = points.values;
    let kind = kinds.values;
    let op = ops.values;
    let takes = taken.values;
    let gives = given.values;
    let then = thens.values;
    let otherwise = others.values;
    let recipe = Recipe {
        count,
        point,
        kind,
        op,
        takes,
        gives,
        then,
        otherwise,
    };
    crate::check_points(&recipe)?;
    Ok(recipe)
}

// Rule 3 and the rest, for a file that passed rule 2 with so many lines.
pub fn read_lines(numbers: &[u32; 448], count: usize) -> Result<Recipe, Broken>
    ensures { (file : List ℕ) → count ≡ length (value_lines file) → Kept 7 file count numbers.now → result ≡ found_if (check_recipe (recipe_of file)) (recipe_of file) }
{
    refusals::check_count(count)?;
    store_lines(numbers, count)
}
