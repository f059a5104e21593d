// Records written as bytes, line by line, each by its own fields, as `cell_bytes` and `recipe_bytes` have them.
ghost use Rattle.std.specs.Prelude.{◌≡◌, ◌++◌, ◌≤◌, length, drop};
ghost use Rattle.records.specs.Encoding.{cell_bytes, recipe_bytes};

use cell::Cell;
use recipe::Recipe;

// Writes a cell record to the buffer's start.
pub fn put_cell(cell: Cell, buffer: &mut [u8])
    requires { (cell.count ≤ 64) × (327 ≤ length buffer.old) }
    ensures { buffer.new ≡ cell_bytes cell ++ drop 327 buffer.old }
{
    buffer[0] = cell.count as u8;
    for i in 0..64 {
        let row = [
            cell.resource[i],
            cell.from[i],
            cell.act[i],
            cell.arg[i],
            cell.to[i],
        ];
        buffers::put(buffer, 1 + 5 * i, &row);
    }
    buffers::put(buffer, 321, &cell.limits);
}

// Writes a recipe record to the buffer's start.
pub fn put_recipe(recipe: Recipe, buffer: &mut [u8])
    requires { (recipe.count ≤ 64) × (449 ≤ length buffer.old) }
    ensures { buffer.new ≡ recipe_bytes recipe ++ drop 449 buffer.old }
{
    buffer[0] = recipe.count as u8;
    for i in 0..64 {
        let row = [
            recipe.point[i],
            recipe.kind[i],
            recipe.op[i],
            recipe.takes[i],
            recipe.gives[i],
            recipe.then[i],
            recipe.otherwise[i],
        ];
        buffers::put(buffer, 1 + 7 * i, &row);
    }
}
