// Records read from bytes.
ghost use Rattle.std.specs.Prelude.{◌≡◌, ◌+◌, ◌*◌, ◌<◌, ◌≤◌, length, get_or};
ghost use Rattle.refusals.specs.Search.{tabulate};
ghost use Rattle.cell.specs.Reader.{no_cell};
ghost use Rattle.recipe.specs.Reader.{no_recipe};
ghost use Rattle.records.specs.Encoding.{column_of, cell_from, recipe_from};

use cell::Cell;
use recipe::Recipe;

// Field i of each of the 64 rows behind byte 0.
fn column(bytes: &[u8], width: usize, i: usize) -> [u8; 64]
    requires width_bound { (width ≤ 7) × (i < width) }
    requires width_in_bounds { 64 * width + 1 ≤ length bytes.now }
    ensures { result ≡ column_of width bytes.now i }
{
    let mut column = [0u8; 64];
    for n in 0..64 {
        column[n] = bytes[1 + n * width + i];
    }
    column
}

// So many bytes from a place on.
pub fn bytes_at<const N: usize>(bytes: &[u8], at: usize) -> [u8; N]
    requires { at + N ≤ length bytes.now }
    ensures { result ≡ tabulate N (λ k. get_or bytes.now (at + k) 0) }
{
    <[u8; N]>::try_from(&bytes[at..at + N]).unwrap()
}

// The cell record of no lines.
pub fn no_cell() -> Cell
    ensures { result ≡ no_cell }
{
    Cell {
        count: 0,
        resource: [0u8; 64],
        from: [0u8; 64],
        act: [0u8; 64],
        arg: [0u8; 64],
        to: [0u8; 64],
        limits: [8u8; 6],
    }
}

// The cell record that bytes hold, one of no lines if they are too few.
pub fn get_cell(bytes: &[u8]) -> Cell
    ensures { result ≡ cell_from bytes.now }
{
    if bytes.len() < 327 {
        return no_cell();
    }
    Cell {
        count: usize::from(bytes[0]),
        resource: column(bytes, 5, 0),
        from: column(bytes, 5, 1),
        act: column(bytes, 5, 2),
        arg: column(bytes, 5, 3),
        to: column(bytes, 5, 4),
        limits: bytes_at(bytes, 321),
    }
}

// The recipe record of no lines.
pub fn no_recipe() -> Recipe
    ensures { result ≡ no_recipe }
{
    Recipe {
        count: 0,
        point: [0u8; 64],
        kind: [0u8; 64],
        op: [0u8; 64],
        takes: [0u8; 64],
        gives: [0u8; 64],
        then: [0u8; 64],
        otherwise: [0u8; 64],
    }
}

// The recipe record that bytes hold, one of no lines if they are too few.
pub fn get_recipe(bytes: &[u8]) -> Recipe
    ensures { result ≡ recipe_from bytes.now }
{
    if bytes.len() < 449 {
        return no_recipe();
    }
    Recipe {
        count: usize::from(bytes[0]),
        point: column(bytes, 7, 0),
        kind: column(bytes, 7, 1),
        op: column(bytes, 7, 2),
        takes: column(bytes, 7, 3),
        gives: column(bytes, 7, 4),
        then: column(bytes, 7, 5),
        otherwise: column(bytes, 7, 6),
    }
}
