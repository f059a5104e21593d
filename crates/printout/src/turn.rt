// One turn of the walk: a byte of standard input, what is printed for it, and the run afterwards.
ghost use Rattle.std.specs.Prelude.{◌≡◌, ◌+◌, ◌*◌, ◌≤◌, length};
ghost use Rattle.records.specs.Encoding.{recipe_from};
ghost use Rattle.printout.specs.Turn.{position_in, told, Answered, Answers};

use crate::{Answer, text};
use cell::Cell;
use recipe::Recipe;
use run::Run;

// The number of the position that a run's point and configuration are; 0 if they are none.
fn position_of(cell: Cell, recipe: Recipe, run: Run) -> usize
    ensures { result ≡ position_in cell recipe run }
{
    let Ok(()) = positions::check_records(cell, recipe) else {
        return 0;
    };
    let sizes = positions::measure(cell, recipe);
    if !positions::range::is_position(sizes, run.point, run.configuration) {
        return 0;
    }
    positions::number::position(sizes, run.point, run.configuration)
}

// Answers a byte, with a text behind the buffer's first `at` bytes: a digit is the outcome of a
// report, and another byte ends the walk. The recipe comes as the bytes of its record.
fn answer(
    cell: Cell,
    recipes: &[u8],
    table: &[u32],
    run: Run,
    byte: u8,
    text: &mut [u8],
    at: usize,
) -> Answer
    requires recipes_len { length recipes.now ≡ 449 }
    requires at_in_bounds { at + 64 ≤ length text.old }
    ensures { Answered (told cell (recipe_from recipes.now) table.now run byte) text.old text.new at result }
{
    if !byte.is_ascii_digit() {
        return Answer {
            length: at,
            more: false,
            run,
        };
    }
    match run.report(cell, recipes, table, byte - b'0') {
        Ok(next) => {
            let recipe = records::get_recipe(recipes);
            let entry = run.next_move(cell, recipes, table).unwrap_or(0);
            let here = position_of(cell, recipe, run) as u64;
            let there = position_of(cell, recipe, next) as u64;
            Answer {
                length: text::put_move(text, at, here, u64::from(entry), there),
                more: true,
                run: next,
            }
        }
        Err(broken) => Answer {
            length: text::put_refusal(text, at, refusals::number(broken.rule)),
            more: false,
            run,
        },
    }
}

// Answers bytes until one ends the walk, with one line behind the other.
pub fn answers(
    cell: Cell,
    recipes: &[u8],
    table: &[u32],
    run: Run,
    bytes: &[u8],
    text: &mut [u8],
) -> Answer
    requires recipes_len { length recipes.now ≡ 449 }
    requires bytes_in_bounds { 64 * length bytes.now ≤ length text.old }
    ensures { Answers cell (recipe_from recipes.now) table.now run bytes.now text.new result }
{
    let mut all = Answer {
        length: 0,
        more: true,
        run,
    };
    for byte in bytes {
        all = answer(cell, recipes, table, all.run, *byte, text, all.length);
        if !all.more {
            return all;
        }
    }
    all
}
