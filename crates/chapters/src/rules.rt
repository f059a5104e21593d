// Rule 24 on the number of chapters, and the rules on one chapter.
ghost use Rattle.std.specs.Prelude.{◌≡◌};
ghost use Rattle.refusals.specs.Verdict.{first_refusal};
ghost use Rattle.chapters.specs.Rules.{rule24, chapter_rules};

use recipe::Recipe;
use refusals::{Refusal, Verdict};

// Rule 24 on the number of chapters.
#[tactic(auto, unfolding(crate::specs::Rules::rule24))]
pub fn check_number(number: usize) -> Verdict
    ensures { result ≡ rule24 number }
{
    refusals::no_line(Refusal::Chapters, number == 0 || 8 < number)
}

// The rules on one chapter: its own, 22 for a call that plans, and 24 if another chapter follows. Two flags say which are tried, as they
// say it to `chapter_rules`.
#[tactic(auto, using(refusals::proofs::Rules::tried, refusals::proofs::Rules::part_err, refusals::proofs::Rules::part_ok, crate::proofs::AcceptedChapters::point_some), unfolding(crate::specs::Rules::chapter_rules, crate::specs::Rules::rule24_joint, recipe::specs::Rules::check_recipe))]
pub fn check_chapter(recipe: &Recipe, plans: bool, earlier: bool) -> Verdict
    ensures { result ≡ first_refusal (chapter_rules plans earlier recipe.now) }
{
    recipe::check_recipe(*recipe)?;
    if plans {
        reached::check_points(*recipe)?;
    }
    refusals::no_line(
        Refusal::Chapters,
        earlier && steps::point_kind(*recipe, 0) == recipe::END,
    )
}
