// The limits file over a record that passed its own rules.
ghost use Rattle.std.specs.Prelude.{◌≡◌, List, [], ◌∷◌, ℕ, ◌≤◌, length};
ghost use Rattle.refusals.specs.Verdict.{first_refusal, found_if, rule3};
ghost use Rattle.tables.specs.Lines.{value_lines};
ghost use Rattle.tables.specs.Table.{column};
ghost use Rattle.tables.specs.Reading.{Kept};
ghost use Rattle.cell.specs.Rules.{resource_count};
ghost use Rattle.limits.specs.Reader.{rule4, rule20, file_rules};
ghost use Rattle.limits.specs.Inner.{limits_of};

use crate::{order, station};
use cell::Cell;
use refusals::{Broken, Refusal};
use tables::field;

// Rule 20 and the limits, for lines that passed rule 4.
fn judged(
    resource: &[u8; 64],
    most: &[u8; 64],
    count: usize,
    cell: &Cell,
) -> Result<[u8; 6], Broken>
    requires { (count ≤ 64) × (cell.now.count ≤ 64) }
    ensures { (file : List ℕ) → resource.now ≡ column file 0 → most.now ≡ column file 1 → count ≡ length (value_lines file) → result ≡ found_if (rule20 file (resource_count cell.now)) (limits_of file) }
{
    let greatest = cell::resources::greatest(cell);
    let first = order::first_misplaced(resource, greatest, count);
    refusals::at_line(Refusal::LimitResource, first, count)?;
    Ok(station::all_limits(resource, most, count))
}

// Rule 4 and the rest, over the numbers that rule 2 kept: the limits as far as the resources are in range.
fn store_lines(numbers: &[u32; 448], count: usize, cell: &Cell) -> Result<[u8; 6], Broken>
    requires { (count ≤ 64) × (cell.now.count ≤ 64) }
    ensures { (file : List ℕ) → count ≡ length (value_lines file) → Kept 2 file count numbers.now → result ≡ found_if (first_refusal (rule4 file ∷ rule20 file (resource_count cell.now) ∷ [])) (limits_of file) }
{
    let resources = field::column(numbers, count, 0, 0, 5);
    let mosts = field::column(numbers, resources.lines, 1, 1, 8);
    refusals::at_line(Refusal::Range, mosts.lines, count)?;
    judged(&resources.values, &mosts.values, count, cell)
}

// Rule 3 and the rest, for a file that passed rule 2 with so many lines.
fn read_lines(numbers: &[u32; 448], count: usize, cell: &Cell) -> Result<[u8; 6], Broken>
    requires { cell.now.count ≤ 64 }
    ensures { (file : List ℕ) → count ≡ length (value_lines file) → Kept 2 file count numbers.now → result ≡ found_if (first_refusal (rule3 (length (value_lines file)) ∷ rule4 file ∷ rule20 file (resource_count cell.now) ∷ [])) (limits_of file) }
{
    refusals::check_count(count)?;
    store_lines(numbers, count, cell)
}

// All rules on the file.
pub fn read_file(file: &[u8], cell: &Cell) -> Result<[u8; 6], Broken>
    requires { cell.now.count ≤ 64 }
    ensures { result ≡ found_if (first_refusal (file_rules file.now cell.now)) (limits_of file.now) }
{
    tables::rules::check_names(file, b"resource,most\n")?;
    let mut numbers = [0u32; 448];
    let count = tables::rules::check_lines(file, 2, &mut numbers)?;
    read_lines(&numbers, count, cell)
}
