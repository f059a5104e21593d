// A cell with an operation line more.
ghost use Rattle.std.specs.Prelude.{◌≡◌, ◌<◌};
ghost use Rattle.cell.specs.Longer.{with_line};

use crate::{Cell, OPERATION, OperationLine};

// The cell with this line behind its own.
#[tactic(auto, unfolding(crate::specs::Longer::with_line))]
pub fn with_line(cell: Cell, line: OperationLine) -> Cell
    requires { cell.count < 64 }
    ensures { result ≡ with_line cell line }
{
    let n = cell.count;
    let mut longer = cell;
    longer.resource[n] = line.resource;
    longer.from[n] = line.from;
    longer.act[n] = OPERATION;
    longer.arg[n] = line.operation;
    longer.to[n] = line.to;
    longer.count += 1;
    longer
}
