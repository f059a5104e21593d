// The rules from 13 to 16, by sizes that were counted once for all chapters.
ghost use Rattle.std.specs.Prelude.{◌≡◌, ◌≤◌};
ghost use Rattle.refusals.specs.Verdict.{first_refusal};
ghost use Rattle.run.specs.Inner.{run_rules_by, table_rules_by};

use crate::Run;
use positions::Sizes;
use refusals::{Refusal, Verdict};

// Rule 13 by the sizes of the chapter with most points, and 16 by those of the run's.
#[tactic(auto, using(refusals::proofs::Rules::tried), unfolding(crate::specs::Inner::run_rules_by, positions::specs::Rules::rule16))]
pub fn check_run(most: Sizes, own: Sizes, run: Run) -> Verdict
    requires { own.resources ≤ 6 }
    ensures { result ≡ first_refusal (run_rules_by most own run) }
{
    positions::check_size(most)?;
    let is_there = positions::range::is_position(own, run.point, run.configuration);
    refusals::no_line(Refusal::RunRange, !is_there)
}

// The same with 14 between them, so that neither calls the other, for a table of so many entries where so many are needed.
#[tactic(auto, using(refusals::proofs::Rules::tried), unfolding(crate::specs::Inner::table_rules_by, positions::specs::Rules::rule16))]
pub fn check_table(most: Sizes, own: Sizes, needed: usize, entries: usize, run: Run) -> Verdict
    requires { own.resources ≤ 6 }
    ensures { result ≡ first_refusal (table_rules_by most own needed entries run) }
{
    positions::check_size(most)?;
    refusals::no_line(Refusal::TooShort, entries < needed)?;
    let is_there = positions::range::is_position(own, run.point, run.configuration);
    refusals::no_line(Refusal::RunRange, !is_there)
}
