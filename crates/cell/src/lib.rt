// The cell: its record, the rules on a record, and its reader.
#![tactic(auto)]

pub mod gates;
pub mod limits;
pub mod longer;
mod ports;
mod range;
mod reader;
pub mod resources;

ghost use Rattle.std.specs.Prelude.{◌≡◌, ◌≤◌};
ghost use Rattle.refusals.specs.Verdict.{first_refusal};
ghost use Rattle.cell.specs.Reader.{read_cell, reading_of};
ghost use Rattle.cell.specs.Rules.{rule20, rule23, check_cell};
ghost use Rattle.cell.specs.Inner.{ranges, port_rules};

use refusals::{Broken, Refusal, Verdict};

// The acts of a line. They are numbers and no enum: a record may hold others, for which `check_cell` answers too.
pub const INTERNAL: u8 = 0;

pub const OPERATION: u8 = 1;

pub const IN: u8 = 2;

pub const OUT: u8 = 3;

pub const GATE: u8 = 4;

// The lines of a cell, an array for each field, and the most parts that each resource may hold; of the lines what lies
// past the count counts for nothing. No Vec of lines: memory is fixed, and the definitions (`leaves_range`, `partner`, `alike` of
// specs/Rules) and what is proved of them speak of the columns. Nor is it an invariant that there are 64 lines at most: `check_cell` speaks of
// records of any count.
#[derive(Clone, Copy)]
pub struct Cell {
    pub count: usize,
    pub resource: [u8; 64],
    pub from: [u8; 64],
    pub act: [u8; 64],
    pub arg: [u8; 64],
    pub to: [u8; 64],
    pub limits: [u8; 6],
}

// An operation line: one of act 1.
#[derive(Clone, Copy)]
pub struct OperationLine {
    pub resource: u8,
    pub from: u8,
    pub operation: u8,
    pub to: u8,
}

// Rule 4, on a record that passed rule 3: its lines, then its limits, which are in no line.
#[tactic(auto, using(refusals::proofs::Rules::tried), unfolding(crate::specs::Inner::ranges, crate::specs::Rules::rule4, crate::specs::Rules::rule4_limits, refusals::specs::Verdict::first_line))]
fn check_ranges(cell: &Cell) -> Verdict
    requires { cell.now.count ≤ 64 }
    ensures { result ≡ first_refusal (ranges cell.now) }
{
    refusals::at_line(Refusal::Range, range::first_out_of_range(cell), cell.count)?;
    refusals::no_line(Refusal::Range, limits::any_out_of_range(&cell.limits))
}

// Rules 5 and 6, on a record that passed rules 3 and 4.
#[tactic(auto, using(refusals::proofs::Rules::tried), unfolding(crate::specs::Inner::port_rules, crate::specs::Rules::rule5, crate::specs::Rules::rule6, refusals::specs::Verdict::first_line))]
pub fn check_ports(cell: &Cell) -> Verdict
    requires { cell.now.count ≤ 64 }
    ensures { result ≡ first_refusal (port_rules cell.now) }
{
    refusals::no_line(Refusal::ResourceGap, resources::has_gap(cell))?;
    let first = ports::first_unpaired(cell);
    refusals::at_line(Refusal::NoPartner, first, cell.count)
}

// Rule 20, on a record that passed rule 3. Where every limit is 8, R need not be known.
#[tactic(auto, using(crate::proofs::StationLimits::none_absent), unfolding(crate::specs::Rules::rule20, refusals::specs::Verdict::no_line))]
fn check_limits(cell: &Cell) -> Verdict
    requires { cell.now.count ≤ 64 }
    ensures { result ≡ rule20 cell.now }
{
    if !limits::any_limited(&cell.limits, 0) {
        return Ok(());
    }
    let resources = resources::greatest(cell) as usize + 1;
    refusals::no_line(
        Refusal::LimitResource,
        limits::any_limited(&cell.limits, resources),
    )
}

// Rule 23, on a record that passed rule 3.
#[tactic(auto, unfolding(crate::specs::Rules::rule23, refusals::specs::Verdict::first_line))]
pub fn check_gates(cell: &Cell) -> Verdict
    requires { cell.now.count ≤ 64 }
    ensures { result ≡ rule23 cell.now }
{
    refusals::at_line(Refusal::RejectLine, gates::first_stray(cell), cell.count)
}

// All rules on a record handed in, whatever is in it.
#[tactic(auto, using(refusals::proofs::Rules::tried, refusals::proofs::Verdicts::count_most), unfolding(crate::specs::Rules::check_cell, crate::specs::Rules::cell_rules, crate::specs::Inner::ranges, crate::specs::Inner::port_rules))]
pub fn check_cell(cell: Cell) -> Verdict
    ensures { result ≡ check_cell cell }
{
    refusals::check_count(cell.count)?;
    check_ranges(&cell)?;
    check_ports(&cell)?;
    check_limits(&cell)?;
    check_gates(&cell)
}

// The cell that a file writes, whatever is in it.
pub fn read_cell(file: &[u8]) -> Result<Cell, Broken>
    ensures { reading_of result ≡ read_cell file.now }
{
    tables::rules::check_names(file, b"resource,from,act,arg,to\n")?;
    let mut numbers = [0u32; 448];
    let count = tables::rules::check_lines(file, 5, &mut numbers)?;
    reader::read_lines(&numbers, count)
}
