// The recipe: its record, the rules on a record, and its reader.
#![tactic(auto)]

mod fields;
mod parts;
pub mod points;
mod range;
mod reader;
mod targets;

ghost use Rattle.std.specs.Prelude.{◌≡◌, [], ◌∷◌, ◌<◌, ◌≤◌};
ghost use Rattle.refusals.specs.Verdict.{Accepted, first_refusal};
ghost use Rattle.recipe.specs.Reader.{read_recipe, reading_of};
ghost use Rattle.recipe.specs.Rules.{rule4, rule7, rule8, rule9, rule10, rule11, rule12, check_recipe};
ghost use Rattle.recipe.specs.Inner.{after_range};

use refusals::{Broken, Refusal, Verdict};

// The kinds of a line, as bytes: a record handed in may have any other. An end leads nowhere.
pub const END: u8 = 0;

// A do leads to its `then`.
pub const DO: u8 = 1;

// A test leads to its `then` and to its `else`.
pub const TEST: u8 = 2;

// The lines of a recipe, an array for each field; what lies past the count counts for nothing. No Vec of lines: memory is fixed, and
// the definitions (`leaves_range`, `breaks_order` and the others of specs/Rules) and what is proved of them speak of the columns. Nor is it
// an invariant that there are 64 lines at most: `check_recipe` speaks of records of any count.
// `otherwise` is the field that the file calls else.
#[derive(Clone, Copy)]
pub struct Recipe {
    pub count: usize,
    pub point: [u8; 64],
    pub kind: [u8; 64],
    pub op: [u8; 64],
    pub takes: [u8; 64],
    pub gives: [u8; 64],
    pub then: [u8; 64],
    pub otherwise: [u8; 64],
}

// Rule 4, on a record that passed rule 3.
#[tactic(auto, unfolding(crate::specs::Rules::rule4, refusals::specs::Verdict::first_line))]
fn check_ranges(recipe: &Recipe) -> Verdict
    requires { recipe.now.count ≤ 64 }
    ensures { result ≡ rule4 recipe.now }
{
    refusals::at_line(
        Refusal::Range,
        range::first_out_of_range(recipe),
        recipe.count,
    )
}

// Rules 7 and 8, on a record that passed rule 3.
#[tactic(auto, using(refusals::proofs::Rules::tried, crate::proofs::PointOrder::ordered_all), unfolding(crate::specs::Rules::rule7, crate::specs::Rules::rule8, refusals::specs::Verdict::first_line))]
fn check_order(recipe: &Recipe) -> Verdict
    requires { recipe.now.count ≤ 64 }
    ensures { result ≡ first_refusal (rule7 recipe.now ∷ rule8 recipe.now ∷ []) }
{
    let first = points::first_out_of_order(recipe);
    refusals::at_line(Refusal::PointOrder, first, recipe.count)?;
    let first = points::first_bad_repeat(recipe);
    refusals::at_line(Refusal::RepeatedPoint, first, recipe.count)
}

// Rules 9 and 10, on a record that passed rule 3.
#[tactic(auto, using(refusals::proofs::Rules::tried), unfolding(crate::specs::Rules::rule9, crate::specs::Rules::rule10, refusals::specs::Verdict::first_line))]
fn check_fields(recipe: &Recipe) -> Verdict
    requires { recipe.now.count ≤ 64 }
    ensures { result ≡ first_refusal (rule9 recipe.now ∷ rule10 recipe.now ∷ []) }
{
    refusals::at_line(
        Refusal::UnusedField,
        fields::first_unused(recipe),
        recipe.count,
    )?;
    refusals::at_line(
        Refusal::NoParts,
        fields::first_without_parts(recipe),
        recipe.count,
    )
}

// Rules 11 and 12, on a record that passed rules 3 and 7: both count on the order of the points.
#[tactic(auto, using(refusals::proofs::Rules::tried, crate::proofs::PointOrder::ordered_all), unfolding(crate::specs::Rules::rule11, crate::specs::Rules::rule12, refusals::specs::Verdict::first_line))]
fn check_parts(recipe: &Recipe) -> Verdict
    requires count_nonzero { (0 < recipe.now.count) × (recipe.now.count ≤ 64) }
    requires recipe_value { rule7 recipe.now ≡ Accepted }
    ensures { result ≡ first_refusal (rule11 recipe.now ∷ rule12 recipe.now ∷ []) }
{
    let first = parts::first_common(recipe);
    refusals::at_line(Refusal::CommonPart, first, recipe.count)?;
    let points = points::point_count(recipe);
    refusals::at_line(
        Refusal::TargetPoint,
        targets::first_leading_out(recipe, points),
        recipe.count,
    )
}

// Rules 7 to 12, on a record that passed rules 3 and 4.
#[tactic(auto, using(refusals::proofs::Rules::tried, refusals::proofs::Rules::first_accepts), unfolding(crate::specs::Inner::after_range))]
pub fn check_points(recipe: &Recipe) -> Verdict
    requires { (0 < recipe.now.count) × (recipe.now.count ≤ 64) }
    ensures { result ≡ first_refusal (after_range recipe.now) }
{
    check_order(recipe)?;
    check_fields(recipe)?;
    check_parts(recipe)
}

// Rules 3, 4 and 7 to 12 on a record handed in, whatever is in it.
#[tactic(auto, using(refusals::proofs::Rules::tried, refusals::proofs::Verdicts::count_some, refusals::proofs::Verdicts::count_most), unfolding(crate::specs::Rules::check_recipe, crate::specs::Rules::recipe_rules, crate::specs::Inner::after_range))]
pub fn check_recipe(recipe: Recipe) -> Verdict
    ensures { result ≡ check_recipe recipe }
{
    refusals::check_count(recipe.count)?;
    check_ranges(&recipe)?;
    check_points(&recipe)
}

// The recipe that a file writes, whatever is in it.
pub fn read_recipe(file: &[u8]) -> Result<Recipe, Broken>
    ensures { reading_of result ≡ read_recipe file.now }
{
    tables::rules::check_names(file, b"point,kind,op,takes,gives,then,else\n")?;
    let mut numbers = [0u32; 448];
    let count = tables::rules::check_lines(file, 7, &mut numbers)?;
    reader::read_lines(&numbers, count)
}
