// Recipes in chapters: 1 to 8 records one after another, and the rules on them.
#![tactic(auto)]

mod counts;
mod rules;

ghost use Rattle.std.specs.Prelude.{◌≡◌, ◌-◌, ◌<◌, length};
ghost use Rattle.chapters.specs.Joined.{chapter_at, is_earlier};
ghost use Rattle.chapters.specs.Rules.{check_sizes};
ghost use Rattle.chapters.specs.Records.{chapters_from};
ghost use Rattle.chapters.specs.Survey.{Sees, SeesAt, Tried};

use cell::Cell;
use recipe::Recipe;
use refusals::{Broken, Verdict};

// The bytes of a recipe record.
const RECORD: usize = 449;

// What is seen of one chapter that its rules accept: its numbers of points and of parts.
#[derive(Clone, Copy)]
pub struct Seen {
    pub points: usize,
    pub parts: usize,
}

// What is counted of chapters that their rules accept: the numbers of points of the chapter that is wanted, of those before it, of
// all, and of the one that has most; and the parts. Of a chapter that isn't there, no points.
#[derive(Clone, Copy)]
pub struct Survey {
    pub own: usize,
    pub before: usize,
    pub all: usize,
    pub most: usize,
    pub parts: usize,
}

// How many chapters the bytes hold.
#[tactic(auto, using(crate::proofs::ChapterBytes::chapters_length))]
pub fn number(recipes: &[u8]) -> usize
    ensures { result ≡ length (chapters_from recipes.now) }
{
    recipes.len() / RECORD
}

// The number of the last chapter; 0 if there is none.
pub fn last(recipes: &[u8]) -> usize
    ensures { result ≡ length (chapters_from recipes.now) - 1 }
{
    number(recipes).saturating_sub(1)
}

// Whether another chapter follows chapter k.
#[tactic(auto, unfolding(crate::specs::Joined::is_earlier))]
pub fn is_earlier(recipes: &[u8], k: usize) -> bool
    ensures { result ≡ is_earlier (chapters_from recipes.now) k }
{
    let number = number(recipes);
    k < number && k + 1 < number
}

// Chapter k; one that isn't there has no lines.
pub fn chapter(recipes: &[u8], k: usize) -> Recipe
    ensures { result ≡ chapter_at (chapters_from recipes.now) k }
{
    if number(recipes) <= k {
        return records::no_recipe();
    }
    let start = k * RECORD;
    records::get_recipe(&recipes[start..])
}

// Looks at one chapter, of which it is told whether another follows.
#[tactic(auto, using(crate::proofs::AcceptedChapters::chapter_some, crate::proofs::AcceptedChapters::chapter_most, crate::proofs::AcceptedChapters::chapter_ordered))]
pub fn look(recipe: Recipe, plans: bool, earlier: bool) -> Result<Seen, Broken>
    ensures { Sees plans earlier recipe result }
{
    rules::check_chapter(&recipe, plans, earlier)?;
    let points = recipe::points::point_count(&recipe);
    let parts = positions::parts::part_count(recipe);
    Ok(Seen { points, parts })
}

// Rule 24 on the number, the cell's rules, and those of each chapter, whatever is in them. The wanted chapter was looked at by the
// caller, who has its recipe at hand.
#[tactic(auto, using(refusals::proofs::Rules::tried, refusals::proofs::Rules::part_err, crate::proofs::AcceptedChapters::number_few, crate::proofs::CountedChapters::tried_all), unfolding(crate::specs::Rules::record_rules, cell::specs::Rules::check_cell))]
pub fn check_records(
    cell: Cell,
    recipes: &[u8],
    plans: bool,
    wanted: usize,
    seen: Result<Seen, Broken>,
) -> Result<Survey, Broken>
    requires { SeesAt plans (chapters_from recipes.now) wanted seen }
    ensures { Tried plans cell (chapters_from recipes.now) wanted result }
{
    let chapters = number(recipes);
    rules::check_number(chapters)?;
    cell::check_cell(cell)?;
    counts::survey(recipes, chapters, plans, wanted, seen)
}

// Rules 24 and 3 to 13 on a cell and chapters handed in, whatever is in them.
pub fn check(cell: Cell, recipes: &[u8]) -> Verdict
    ensures { result ≡ check_sizes cell (chapters_from recipes.now) }
{
    let seen = look(chapter(recipes, 0), false, is_earlier(recipes, 0));
    let survey = check_records(cell, recipes, false, 0, seen)?;
    positions::check_size(positions::measure_for(cell, survey.most, survey.parts))
}
