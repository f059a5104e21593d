// The run: a point of a chapter and a configuration that a stored table leads through a recipe.
#![tactic(auto)]

mod entry;
mod joint;
mod rules;

ghost use Rattle.std.specs.Prelude.{◌≡◌};
ghost use Rattle.chapters.specs.Records.{chapters_from};
ghost use Rattle.run.specs.Calls.{fresh_run, move_of, next_move, answered, report_of, Stored, place_of, part_place};

use cell::Cell;
use positions::Configuration;
use refusals::{Broken, Refusal, Verdict};

// Where a product is in its recipe, and how the cell stands.
#[repr(C)]
#[derive(Clone, Copy)]
pub struct Run {
    pub point: u8,
    pub configuration: Configuration,
    pub chapter: u8,
}

impl Run {
    // A run at point 0 of the first chapter, each resource in state 0 and each part outside.
    #[tactic(auto, unfolding(crate::specs::Calls::fresh_run, positions::specs::Position::start))]
    pub fn fresh() -> Run
        ensures { result ≡ fresh_run }
    {
        Run {
            point: 0,
            configuration: Configuration {
                state: [0u8; 6],
                place: [0u8; 8],
            },
            chapter: 0,
        }
    }

    // The move at the run's position, whatever is handed in.
    #[tactic(auto, using(crate::proofs::Answers::kept_cell, crate::proofs::Answers::kept_recipe, crate::proofs::Answers::kept_point, crate::proofs::Answers::next_refused, crate::proofs::Answers::next_shut, crate::proofs::Answers::next_open))]
    pub fn next_move(self, cell: Cell, recipes: &[u8], table: &[u32]) -> Result<u32, Broken>
        ensures { move_of result ≡ next_move cell (chapters_from recipes.now) table.now self }
    {
        let recipe = chapters::chapter(recipes, self.chapter as usize);
        let entry = entry::find(self, cell, recipes, &recipe, table)?;
        let is_open = moves::is_open(cell, recipe, self.point, self.configuration, entry);
        refusals::no_line(Refusal::NotOpen, !is_open)?;
        Ok(entry)
    }

    // The next run, whatever is handed in. The outcome is a number and no enum, since any may be handed in: 17 refuses it.
    #[tactic(auto, using(crate::proofs::Answers::kept_cell, crate::proofs::Answers::kept_recipe, crate::proofs::Answers::kept_point, crate::proofs::Answers::kept_chapter, crate::proofs::Answers::stands_open, crate::proofs::Answers::lead_inside, crate::proofs::Answers::report_refused, crate::proofs::Answers::report_17, crate::proofs::Answers::report_18, crate::proofs::Answers::report_19, crate::proofs::Answers::report_stays, crate::proofs::Answers::report_lands))]
    pub fn report(
        mut self,
        cell: Cell,
        recipes: &[u8],
        table: &[u32],
        outcome: u8,
    ) -> Result<Run, Broken>
        ensures { answered self result ≡ report_of cell (chapters_from recipes.now) table.now self outcome }
    {
        let k = self.chapter as usize;
        let recipe = chapters::chapter(recipes, k);
        let entry = entry::find(self, cell, recipes, &recipe, table)?;
        refusals::no_line(Refusal::OutcomeRange, 1 < outcome)?;
        let is_open = moves::is_open(cell, recipe, self.point, self.configuration, entry);
        refusals::no_line(Refusal::NotOpen, !is_open)?;
        let is_end = steps::point_kind(recipe, self.point) == recipe::END;
        refusals::no_line(Refusal::AtEnd, is_end)?;
        let configuration = moves::make(
            cell,
            recipe,
            self.point,
            self.configuration,
            entry,
            outcome,
        );
        self.point = steps::lead(recipe, self.point, entry, outcome);
        self.configuration = configuration;
        if chapters::is_earlier(recipes, k) {
            Ok(joint::land(self, &recipe))
        } else {
            Ok(self)
        }
    }

    // The place of a part, whatever is handed in; 255 for a part that isn't there, and no None: `part_place` has it so, and C gets it.
    #[tactic(auto, using(crate::proofs::CountedRules::cell_passed, crate::proofs::CountedRules::most_few, crate::proofs::CountedRules::own_few, crate::proofs::CountedRules::parts_few, crate::proofs::Answers::place_early, crate::proofs::Answers::place_refused, crate::proofs::Answers::place_past, crate::proofs::Answers::place_there))]
    pub fn place(self, cell: Cell, recipes: &[u8], part: u8) -> Result<u8, Broken>
        ensures { place_of result ≡ part_place cell (chapters_from recipes.now) self part }
    {
        let recipe = chapters::chapter(recipes, self.chapter as usize);
        let survey = entry::survey(self, cell, recipes, &recipe)?;
        let sizes = positions::measure_for(cell, survey.most, survey.parts);
        let own = positions::with_points(sizes, survey.own);
        rules::check_run(sizes, own, self)?;
        if survey.parts <= part as usize {
            return Ok(255);
        }
        Ok(self.configuration.place[part as usize])
    }
}

// The second form of report: the line screen's record is advanced in its own storage.
#[tactic(auto, unfolding(crate::specs::Calls::answered))]
pub fn report_record(
    run: &mut Run,
    cell: Cell,
    recipes: &[u8],
    table: &[u32],
    outcome: u8,
) -> Verdict
    ensures { Stored cell (chapters_from recipes.now) table.now run.old outcome result run.new }
{
    *run = run.report(cell, recipes, table, outcome)?;
    Ok(())
}
