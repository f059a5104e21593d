// The joint between two chapters.
ghost use Rattle.std.specs.Prelude.{◌≡◌, ◌+◌, ◌<◌};
ghost use Rattle.refusals.specs.Verdict.{Accepted};
ghost use Rattle.recipe.specs.Rules.{point_count, check_recipe};
ghost use Rattle.chapters.specs.Joined.{point_in};
ghost use Rattle.run.specs.Calls.{run_at};
ghost use Rattle.run.specs.Inner.{Landed};

use crate::Run;
use recipe::Recipe;

// The run past the joint: at point 0 of the next chapter, as the cell stands.
fn pass(run: Run) -> Run
    requires { run.chapter < 8 }
    ensures { result ≡ run_at (point_in (run.chapter + 1) 0) run.configuration }
{
    Run {
        point: 0,
        chapter: run.chapter + 1,
        ..run
    }
}

// Where a run of an earlier chapter lands whose move led to its point.
#[tactic(auto, using(crate::proofs::JointPassed::joint_passed, crate::proofs::JointPassed::joint_ahead))]
pub fn land(run: Run, recipe: &Recipe) -> Run
    requires recipe_value { check_recipe recipe.now ≡ Accepted }
    requires point_bound { run.point < point_count recipe.now.point recipe.now.count }
    requires chapter_bound { run.chapter < 8 }
    ensures { Landed recipe.now run result }
{
    if steps::point_kind(*recipe, run.point) == recipe::END {
        pass(run)
    } else {
        run
    }
}
