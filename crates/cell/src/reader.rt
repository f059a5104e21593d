// The numbers of a cell file that passed rules 1 and 2, read into a record.
ghost use Rattle.std.specs.Prelude.{◌≡◌, List, ◌∷◌, ℕ, ◌≤◌, length};
ghost use Rattle.refusals.specs.Verdict.{first_refusal, found_if};
ghost use Rattle.tables.specs.Lines.{value_lines};
ghost use Rattle.tables.specs.Reading.{Kept};
ghost use Rattle.cell.specs.Reader.{cell_of};
ghost use Rattle.cell.specs.Inner.{after_range};
ghost use Rattle.cell.specs.Rules.{rule4, check_cell};

use crate::Cell;
use refusals::{Broken, Refusal, Verdict};
use tables::field;

// Rules 5, 6 and 23, on a record that passed rule 4 and whose limits are all 8: rule 20 has nothing against these.
#[tactic(auto, using(refusals::proofs::Rules::tried), unfolding(crate::specs::Inner::port_rules, crate::specs::Inner::after_range))]
fn check_lines(cell: &Cell) -> Verdict
    requires { cell.now.count ≤ 64 }
    ensures { result ≡ first_refusal (after_range cell.now) }
{
    crate::check_ports(cell)?;
    crate::check_gates(cell)
}

// Rule 4 and the rest, over the numbers that rule 2 kept: each field as far as those before it are in range.
fn store_lines(numbers: &[u32; 448], count: usize) -> Result<Cell, Broken>
    requires { count ≤ 64 }
    ensures { (file : List ℕ) → count ≡ length (value_lines file) → Kept 5 file count numbers.now → result ≡ found_if (first_refusal (rule4 (cell_of file) ∷ after_range (cell_of file))) (cell_of file) }
{
    let resources = field::column(numbers, count, 0, 0, 5);
    let froms = field::column(numbers, resources.lines, 1, 0, 7);
    let acts = field::column(numbers, froms.lines, 2, 0, 4);
    let args = field::column(numbers, acts.lines, 3, 0, 63);
    let tos = field::column(numbers, args.lines, 4, 0, 7);
    refusals::at_line(Refusal::Range, tos.lines, count)?;
    // An array of another value goes into a literal by a local.
    let resource = resources.values;
    let from = froms.values;
    let act = acts.values;
    let arg = args.values;
    let to = tos.values;
    let cell = Cell {
        count,
        resource,
        from,
        act,
        arg,
        to,
        limits: [8u8; 6],
    };
    check_lines(&cell)?;
    Ok(cell)
}

// Rule 3 and the rest, for a file that passed rule 2 with so many lines.
pub fn read_lines(numbers: &[u32; 448], count: usize) -> Result<Cell, Broken>
    ensures { (file : List ℕ) → count ≡ length (value_lines file) → Kept 5 file count numbers.now → result ≡ found_if (check_cell (cell_of file)) (cell_of file) }
{
    refusals::check_count(count)?;
    store_lines(numbers, count)
}
