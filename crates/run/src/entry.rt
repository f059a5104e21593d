// What is counted of the chapters, and the entry at a run's position.
ghost use Rattle.std.specs.Prelude.{◌≡◌, false};
ghost use Rattle.chapters.specs.Joined.{chapter_at};
ghost use Rattle.chapters.specs.Records.{chapters_from};
ghost use Rattle.chapters.specs.Survey.{Tried};
ghost use Rattle.run.specs.Inner.{find_entry};

use crate::Run;
use cell::Cell;
use chapters::Survey;
use recipe::Recipe;
use refusals::Broken;

// What is counted of the chapters, by the rules up to 12 and 24, for a run whose chapter is this recipe.
pub fn survey(run: Run, cell: Cell, recipes: &[u8], recipe: &Recipe) -> Result<Survey, Broken>
    requires { recipe.now ≡ chapter_at (chapters_from recipes.now) run.chapter }
    ensures { Tried false cell (chapters_from recipes.now) run.chapter result }
{
    let k = run.chapter as usize;
    let seen = chapters::look(*recipe, false, chapters::is_earlier(recipes, k));
    chapters::check_records(cell, recipes, false, k, seen)
}

// The entry at the run's position, by the rules up to 16. The sizes of all chapters are the same but for their points, so that J × W
// is worked out once and the tables before the run's are counted in points.
#[tactic(auto, using(crate::proofs::CountedRules::cell_passed, crate::proofs::CountedRules::most_few, crate::proofs::CountedRules::own_few, crate::proofs::CountedRules::parts_few, crate::proofs::FoundEntry::found))]
pub fn find(
    run: Run,
    cell: Cell,
    recipes: &[u8],
    recipe: &Recipe,
    table: &[u32],
) -> Result<u32, Broken>
    requires { recipe.now ≡ chapter_at (chapters_from recipes.now) run.chapter }
    ensures { result ≡ find_entry cell (chapters_from recipes.now) table.now run }
{
    let survey = survey(run, cell, recipes, recipe)?;
    let sizes = positions::measure_for(cell, survey.most, survey.parts);
    let own = positions::with_points(sizes, survey.own);
    let wide = sizes.joint * sizes.ways;
    crate::rules::check_table(sizes, own, survey.all * wide, table.len(), run)?;
    let position = positions::number::position(own, run.point, run.configuration);
    Ok(table[survey.before * wide + position])
}
