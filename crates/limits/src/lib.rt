// The limits file: its reader, which puts the file's limits into the cell record that it is handed.
#![tactic(auto)]

mod order;
mod reader;
mod station;

ghost use Rattle.std.specs.Prelude.{◌≡◌};
ghost use Rattle.limits.specs.Reader.{read_limits, reading_over};

use cell::Cell;
use refusals::Broken;

// The record with the limits that the file writes, whatever is in either. A refusal of the record names no line, since the
// lines of the file are not those that it speaks of.
pub fn read_limits(file: &[u8], cell: Cell) -> Result<Cell, Broken>
    ensures { reading_over cell result ≡ read_limits file.now cell }
{
    // `map_err` was tried; its proof did not close.
    if let Err(broken) = cell::check_cell(cell) {
        return Err(Broken {
            rule: broken.rule,
            line: 0,
        });
    }
    let mut limited = cell;
    let limits = reader::read_file(file, &cell)?;
    limited.limits = limits;
    Ok(limited)
}
