// The C interface. No call has a requires: what is handed in may hold anything.
#![tactic(auto)]

mod get;
mod put;

ghost use Rattle.std.specs.Prelude.{◌≡◌, Err, length};
ghost use Rattle.tables.specs.Lines.{line_start, shown_line};
ghost use Rattle.cell.specs.Reader.{read_cell};
ghost use Rattle.limits.specs.Reader.{read_limits};
ghost use Rattle.recipe.specs.Reader.{read_recipe};
ghost use Rattle.refusals.specs.Verdict.{Accepted, refusal_in};
ghost use Rattle.chapters.specs.Records.{chapters_from};
ghost use Rattle.chapters.specs.Rules.{check_sizes};
ghost use Rattle.marks.specs.Bytes.{next_set};
ghost use Rattle.run.specs.Calls.{fresh_run, next_move, report_of, part_place};
ghost use Rattle.records.specs.Encoding.{cell_bytes, recipe_bytes, cell_from, recipe_from};
ghost use Rattle.capi.specs.Encoding.{code_of, run_bytes, run_from};
ghost use Rattle.capi.specs.Answer.{BufferAnswered, LimitsAnswered, move_code, place_code, Reported, Recorded, PlanAnswered, InstallAnswered};
ghost use Rattle.planner.specs.Call.{FixedCall};

use refusals::{Broken, Refusal, Verdict};
use run::Run;

// A reader's refusal as one number: its own and 256 times the line. The line is taken modulo 2 ^ 56, so
// that it fits for any file.
fn code(broken: Broken) -> u64
    ensures { result ≡ code_of (Err broken) }
{
    u64::from(refusals::number(broken.rule)) + 256 * ((broken.line % 72057594037927936) as u64)
}

// Reads a cell file into the 327 bytes of a record.
#[unsafe(no_mangle)]
pub extern "C" fn cellplan_read_cell(file: &[u8], buffer: &mut [u8]) -> u64
    ensures { BufferAnswered (read_cell file.now).verdict (cell_bytes (read_cell file.now).cell) 327 buffer.old buffer.new result }
{
    if buffer.len() < 327 {
        return refusals::number(Refusal::TooShort) as u64;
    }
    match cell::read_cell(file) {
        Ok(cell) => {
            records::put_cell(cell, buffer);
            0
        }
        Err(broken) => {
            records::put_cell(records::no_cell(), buffer);
            code(broken)
        }
    }
}

// Reads a recipe file into the 449 bytes of a record.
#[unsafe(no_mangle)]
pub extern "C" fn cellplan_read_recipe(file: &[u8], buffer: &mut [u8]) -> u64
    ensures { BufferAnswered (read_recipe file.now).verdict (recipe_bytes (read_recipe file.now).recipe) 449 buffer.old buffer.new result }
{
    if buffer.len() < 449 {
        return refusals::number(Refusal::TooShort) as u64;
    }
    match recipe::read_recipe(file) {
        Ok(recipe) => {
            records::put_recipe(recipe, buffer);
            0
        }
        Err(broken) => {
            records::put_recipe(records::no_recipe(), buffer);
            code(broken)
        }
    }
}

// Reads a limits file into the limits of a cell record, or leaves these if it refuses. All other bytes stay.
#[unsafe(no_mangle)]
pub extern "C" fn cellplan_read_limits(file: &[u8], cell: &mut [u8]) -> u64
    ensures { LimitsAnswered (read_limits file.now (cell_from cell.old)) cell.old cell.new result }
{
    match limits::read_limits(file, records::get_cell(cell)) {
        Ok(limited) => {
            if 327 <= cell.len() {
                buffers::put(cell, 321, &limited.limits);
            }
            0
        }
        Err(broken) => code(broken),
    }
}

// Where value line n starts in the file; 0 if there is none.
#[unsafe(no_mangle)]
pub extern "C" fn cellplan_line_start(file: &[u8], n: usize) -> usize
    ensures { result ≡ line_start file.now n }
{
    tables::lines::find_line(file, n).map_or(0, |span| span.start)
}

// How many bytes value line n has, without byte 10; 0 if there is none.
#[unsafe(no_mangle)]
pub extern "C" fn cellplan_line_length(file: &[u8], n: usize) -> usize
    ensures { result ≡ length (shown_line file.now n) }
{
    tables::lines::show_line(file, n).len()
}

// The least place at or after the start whose byte is not 0, or the length: what the planner's sweeps seek by.
#[unsafe(no_mangle)]
pub extern "C" fn cellplan_next_set(bytes: &[u8], start: usize) -> usize
    ensures { result ≡ next_set bytes.now start }
{
    marks::bytes::next_set(bytes, start)
}

// The number of a verdict's refusal, 0 if it accepts.
fn refusal_number(verdict: Verdict) -> u32
    ensures { result ≡ refusal_in verdict }
{
    match verdict {
        Ok(()) => 0,
        Err(broken) => u32::from(refusals::number(broken.rule)),
    }
}

// Tries rules 24 and 3 to 13 on a cell and chapters.
#[unsafe(no_mangle)]
pub extern "C" fn cellplan_check(cell: &[u8], recipes: &[u8]) -> u32
    ensures { result ≡ refusal_in (check_sizes (cell_from cell.now) (chapters_from recipes.now)) }
{
    refusal_number(chapters::check(records::get_cell(cell), recipes))
}

// Fills a table with a plan, or refuses.
#[unsafe(no_mangle)]
pub extern "C" fn cellplan_plan(
    cell: &[u8],
    recipes: &[u8],
    table: &mut [u32],
    scratch: &mut [u8],
) -> u32
    ensures answered { PlanAnswered (cell_from cell.now) (chapters_from recipes.now) table.old scratch.old table.new scratch.new result }
    ensures fixed { FixedCall (cell_from cell.now) (chapters_from recipes.now) table.old scratch.old table.new }
{
    refusal_number(planner::plan(records::get_cell(cell), recipes, table, scratch))
}

// Lists the operation lines of which each alone would make the recipe acceptable, or refuses.
#[unsafe(no_mangle)]
pub extern "C" fn cellplan_install(
    cell: &[u8],
    recipe: &[u8],
    table: &mut [u32],
    scratch: &mut [u8],
    list: &mut [u8],
) -> u64
    ensures { InstallAnswered (cell_from cell.now) (recipe_from recipe.now) table.old scratch.old list.old table.new scratch.new list.new result }
{
    let cell = records::get_cell(cell);
    let recipe = records::get_recipe(recipe);
    match install::install(cell, recipe, table, scratch, list) {
        Ok(count) => count as u64,
        Err(broken) => u64::from(refusals::number(broken.rule)) * 4294967296,
    }
}

// Writes a fresh run.
#[unsafe(no_mangle)]
pub extern "C" fn cellplan_fresh(buffer: &mut [u8]) -> u32
    ensures { BufferAnswered Accepted (run_bytes fresh_run) 16 buffer.old buffer.new result }
{
    if buffer.len() < 16 {
        return refusals::number(Refusal::TooShort) as u32;
    }
    put::put_run(Run::fresh(), buffer);
    0
}

// The move at a run's position.
#[unsafe(no_mangle)]
pub extern "C" fn cellplan_next_move(
    cell: &[u8],
    recipes: &[u8],
    table: &[u32],
    bytes: &[u8],
) -> u64
    ensures { result ≡ move_code (next_move (cell_from cell.now) (chapters_from recipes.now) table.now (run_from bytes.now)) }
{
    let run = get::get_run(bytes);
    match run.next_move(records::get_cell(cell), recipes, table) {
        Ok(entry) => u64::from(entry),
        Err(broken) => u64::from(refusals::number(broken.rule)) * 4294967296,
    }
}

// Writes the next run over a run, or leaves it if the report is refused.
#[unsafe(no_mangle)]
pub extern "C" fn cellplan_report(
    cell: &[u8],
    recipes: &[u8],
    table: &[u32],
    buffer: &mut [u8],
    outcome: u8,
) -> u32
    ensures { Reported (report_of (cell_from cell.now) (chapters_from recipes.now) table.now (run_from buffer.old) outcome) buffer.old buffer.new result }
{
    let run = get::get_run(buffer);
    match run.report(records::get_cell(cell), recipes, table, outcome) {
        Ok(next) => {
            if 16 <= buffer.len() {
                put::put_run(next, buffer);
            }
            0
        }
        Err(broken) => u32::from(refusals::number(broken.rule)),
    }
}

// Advances a run record in its own storage, or leaves it if the report is refused.
#[unsafe(no_mangle)]
pub extern "C" fn cellplan_report_record(
    cell: &[u8],
    recipes: &[u8],
    table: &[u32],
    run: &mut Run,
    outcome: u8,
) -> u32
    ensures { Recorded (cell_from cell.now) (chapters_from recipes.now) table.now run.old outcome run.new result }
{
    refusal_number(run::report_record(run, records::get_cell(cell), recipes, table, outcome))
}

// The place of a part.
#[unsafe(no_mangle)]
pub extern "C" fn cellplan_place(cell: &[u8], recipes: &[u8], bytes: &[u8], part: u8) -> u32
    ensures { result ≡ place_code (part_place (cell_from cell.now) (chapters_from recipes.now) (run_from bytes.now) part) }
{
    let run = get::get_run(bytes);
    match run.place(records::get_cell(cell), recipes, part) {
        Ok(place) => u32::from(place),
        Err(broken) => u32::from(refusals::number(broken.rule)) * 256 + 255,
    }
}
