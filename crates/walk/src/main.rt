// The program `walk`: plans the cell and the recipe of the working directory, and follows the plan
// by the outcomes that standard input gives.
#![tactic(auto)]

ghost use Rattle.std.specs.Prelude.{◌≡◌, false, Err, [], ◌*◌, ◌≤◌, length, take, IsOk};
ghost use Rattle.std.specs.Io.KnownBytes.{Appends, Consumes};
ghost use Rattle.cell.specs.Reader.{reading_of};
ghost use Rattle.records.specs.Encoding.{recipe_from};
ghost use Rattle.walk.specs.Counts.{IsPrefixLen};
ghost use Rattle.walk.specs.Output.{below, CellRead, ReadBehind, TellsOf, Prepared, FixedPrepared, Stepped, Followed, FollowedOn, Walk};

use cell::Cell;
use recipe::Recipe;
use refusals::Broken;
use run::Run;
use std::io::{Read, Write};
use std::rt::Files;
use std::{fmt, fs, io};

// Where the lines are printed, and where it is said why one could not be.
#[derive(Drop)]
pub struct Printer<O, E> {
    pub output: O,
    pub errors: E,
}

// The words of an error, without the number that std's own text puts behind those of the system.
#[derive(Drop)]
struct Words<'a, E> {
    errors: &'a E,
    are_over: bool,
}

impl<E: Eprint> fmt::Write for Words<'_, E> {
    fn write_str(&mut self, piece: &str) -> fmt::Result {
        if piece == " (os error " {
            self.are_over = true;
        }
        if self.are_over {
            return Ok(());
        }
        match self.errors.eprint(piece) {
            Ok(()) => Ok(()),
            Err(_) => Err(fmt::Error),
        }
    }
}

// Standard output took no more, and it was said why.
#[derive(Clone, Copy)]
pub struct Unwritten;

// What one read of standard input comes to: how many bytes it gave, how many bytes of text were
// handed over for them, whether writing these failed, whether the walk goes on, and the run
// afterwards. The flags stand beside the rest since Stepped and FollowedOn say of a text that could not
// be written, too, what was read and what was handed over for it.
#[derive(Clone, Copy)]
pub struct Step {
    pub got: usize,
    pub length: usize,
    pub failed: bool,
    pub more: bool,
    pub run: Run,
}

// Says why standard output took no more. A failure to say so is let go: there is nowhere left to tell.
fn say_why<E: Eprint>(errors: &E, error: io::Error) {
    let mut words = Words {
        errors,
        are_over: false,
    };
    let _ = errors.eprint("standard output: ");
    let _ = fmt::Write::write_fmt(&mut words, error);
    let _ = errors.eprint("\n");
}

// Hands a text to standard output; where writing fails it says why.
fn print<O: Write, E: Eprint>(printer: &mut Printer<O, E>, text: &[u8]) -> Result<(), Unwritten>
    ensures { IsOk result → Appends (O.contents printer.old.output) (O.contents printer.new.output) text.now }
{
    match printer.output.write_all(text) {
        Ok(()) => Ok(()),
        Err(error) => {
            say_why(&printer.errors, error);
            Err(Unwritten)
        }
    }
}

// Prints the line of a refusal.
fn print_refusal<O: Write, E: Eprint>(
    printer: &mut Printer<O, E>,
    broken: Broken,
) -> Result<(), Unwritten>
    ensures { IsOk result → Appends (O.contents printer.old.output) (O.contents printer.new.output) (below (Err broken) []) }
{
    let mut line = [0u8; 64];
    let length = printout::text::put_refusal(&mut line, 0, refusals::number(broken.rule));
    print(printer, &line[..length])
}

// One read; one that fails gives no bytes, as one at the end.
fn read_some<I: Read>(input: &mut I, bytes: &mut [u8]) -> usize
    ensures inside { IsPrefixLen result bytes.new }
    ensures read { Consumes (I.remaining input.old) (I.remaining input.new) (take result bytes.new) }
{
    input.read(bytes).unwrap_or(0)
}

// Reads until the buffer is full or a read gives nothing, and answers how many bytes stand at its
// start.
fn read_full<I: Read>(input: &mut I, start: &mut [u8]) -> usize
    ensures inside { IsPrefixLen result start.new }
    ensures read { Consumes (I.remaining input.old) (I.remaining input.new) (take result start.new) }
{
    let mut done = 0;
    // No count: each read says how far it came.
    while done < start.len() {
        let got = read_some(input, &mut start[done..]);
        if got == 0 {
            break;
        }
        done += got;
    }
    done
}

// Reads a file's start as far as the buffer has room, and answers how many bytes that are; 0 for a
// file that cannot be opened.
fn read_start<F: Files>(files: &F, path: &str, start: &mut [u8]) -> usize
    ensures { IsPrefixLen result start.new }
{
    match fs::open(files, path) {
        Ok(mut file) => read_full(&mut file, start),
        Err(_) => 0,
    }
}

// The cell of the working directory.
fn read_cell<F: Files>(files: &F) -> Result<Cell, Broken>
    ensures { CellRead (reading_of result) }
{
    let mut start = [0u8; 8192];
    let length = read_start(files, "cell.csv", &mut start);
    cell::read_cell(&start[..length])
}

// The recipe of the working directory behind the cell: the refusal of a cell is handed on, and no recipe is read then.
fn read_recipe<F: Files>(files: &F, cell: Result<Cell, Broken>) -> Result<(Cell, Recipe), Broken>
    ensures { ReadBehind cell result }
{
    let cell = cell?;
    let mut start = [0u8; 8192];
    let length = read_start(files, "recipe.csv", &mut start);
    let recipe = recipe::read_recipe(&start[..length])?;
    Ok((cell, recipe))
}

// Reads the cell and, unless that is refused, the recipe, of which it keeps the record's bytes, and plans
// with 8192 places: a scratch of 1024 bytes has as many.
fn prepare<F: Files>(files: &F, recipes: &mut [u8], table: &mut [u32]) -> Result<Cell, Broken>
    requires recipes_len { length recipes.old ≡ 449 }
    requires table_len { length table.old ≡ 8192 }
    ensures prepared { TellsOf result (Prepared recipes.new table.new) }
    ensures fixed { TellsOf result (FixedPrepared recipes.new table.new) }
{
    let (cell, recipe) = read_recipe(files, read_cell(files))?;
    records::put_recipe(recipe, recipes);
    let mut scratch = [0u8; 1024];
    planner::plan(cell, recipes, table, &mut scratch)?;
    Ok(cell)
}

// Takes what one read gives and prints its answer, before more is waited for. A text that cannot be
// written ends the walk, as does the end of the input.
fn take_some<I: Read, O: Write, E: Eprint>(
    input: &mut I,
    printer: &mut Printer<O, E>,
    cell: Cell,
    recipes: &[u8],
    table: &[u32],
    run: Run,
    bytes: &mut [u8],
    text: &mut [u8],
) -> Step
    requires recipes_len { length recipes.now ≡ 449 }
    requires bytes_in_bounds { 64 * length bytes.old ≤ length text.old }
    ensures stepped { Stepped cell (recipe_from recipes.now) table.now run bytes.new text.new result }
    ensures read { Consumes (I.remaining input.old) (I.remaining input.new) (take result.got bytes.new) }
    ensures written { result.failed ≡ false
        → Appends (O.contents printer.old.output) (O.contents printer.new.output) (take result.length text.new) }
{
    let got = read_some(input, bytes);
    if got == 0 {
        return Step {
            got,
            length: 0,
            failed: false,
            more: false,
            run,
        };
    }
    let answer = printout::turn::answers(cell, recipes, table, run, &bytes[..got], text);
    let failed = print(printer, &text[..answer.length]).is_err();
    Step {
        got,
        length: answer.length,
        failed,
        more: answer.more && !failed,
        run: answer.run,
    }
}

// Follows a table from a fresh run. A proved loop has to end, and nothing says that standard input
// does; so the reads are counted.
fn follow<I: Read, O: Write, E: Eprint>(
    input: &mut I,
    printer: &mut Printer<O, E>,
    cell: Cell,
    recipes: &[u8],
    table: &[u32],
    reads: u64,
) -> Step
    requires { length recipes.now ≡ 449 }
    ensures followed { Followed cell (recipe_from recipes.now) table.now reads result }
    ensures streams { FollowedOn cell (recipe_from recipes.now) table.now reads result
        (I.remaining input.old) (I.remaining input.new)
        (O.contents printer.old.output) (O.contents printer.new.output) }
{
    let mut bytes = [0u8; 1024];
    // A line has at most 64 bytes.
    let mut text = [0u8; 65536];
    let mut step = Step {
        got: 0,
        length: 0,
        failed: false,
        more: true,
        run: Run::fresh(),
    };
    for _ in 0..reads {
        step = take_some(
            input, printer, cell, recipes, table, step.run, &mut bytes, &mut text,
        );
        if !step.more {
            return step;
        }
    }
    step
}

// Prints the names, and below them the refusal or the lines of the moves.
fn plan_and_follow<F: Files, I: Read, O: Write, E: Eprint>(
    files: &F,
    input: &mut I,
    printer: &mut Printer<O, E>,
) -> Result<(), Unwritten>
    ensures { IsOk result → Walk (I.remaining input.old) (I.remaining input.new)
        (O.contents printer.old.output) (O.contents printer.new.output) }
{
    print(printer, b"position,entry,next\n")?;
    let mut recipes = [0u8; 449];
    let mut table = [0u32; 8192];
    match prepare(files, &mut recipes, &mut table) {
        Ok(cell) => {
            // No walk uses up so many reads.
            let last = follow(input, printer, cell, &recipes, &table, u64::MAX);
            if last.failed { Err(Unwritten) } else { Ok(()) }
        }
        Err(broken) => print_refusal(printer, broken),
    }
}

fn main(rt: HostRuntime) {
    let mut printer = Printer {
        output: rt.stdout(),
        errors: rt.stderr(),
    };
    // What could not be written was said already.
    let _ = plan_and_follow(&rt, &mut rt.stdin(), &mut printer);
}
