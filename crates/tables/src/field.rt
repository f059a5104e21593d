// Rule 4, number by number: the fields of a record, read from the numbers that rule 2 kept.
ghost use Rattle.std.specs.Prelude.{◌<◌, ◌≤◌, length};
ghost use Rattle.tables.specs.Reading.{Ranged};

use crate::Column;

// The field's numbers of the first `count` kept lines, up to one that isn't from `least` to `most`.
pub fn column(numbers: &[u32], count: usize, field: usize, least: u32, most: u32) -> Column
    requires in_bounds { 448 ≤ length numbers.now }
    requires count_bound { (count ≤ 64) × (field < 7) × (most ≤ 255) }
    ensures { Ranged numbers.now count field least most result }
{
    let mut values = [0u8; 64];
    for i in 0..count {
        let n = numbers[i * 7 + field];
        if n < least || most < n {
            return Column { lines: i, values };
        }
        values[i] = n as u8;
    }
    Column {
        lines: count,
        values,
    }
}
