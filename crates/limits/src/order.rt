// Rule 20: the lines' resources are resources of the cell, and rise.
ghost use Rattle.std.specs.Prelude.{◌≡◌, ◌+◌, ◌<◌, ◌≤◌};
ghost use Rattle.refusals.specs.Search.{first_below};
ghost use Rattle.limits.specs.Reader.{misplaced};

use refusals::search;

// Whether line n's resource is above the cell's greatest, or isn't greater than that of the line before.
#[tactic(auto, unfolding(crate::specs::Reader::misplaced, crate::specs::Reader::does_not_rise))]
fn is_misplaced(resource: &[u8; 64], greatest: u8, n: usize) -> bool
    requires { n < 64 }
    ensures { result ≡ misplaced resource.now (greatest + 1) n }
{
    greatest < resource[n] || (n != 0 && resource[n] <= resource[n - 1])
}

// The first line that breaks rule 20, or the count.
pub fn first_misplaced(resource: &[u8; 64], greatest: u8, count: usize) -> usize
    requires { count ≤ 64 }
    ensures { result ≡ first_below (misplaced resource.now (greatest + 1)) count }
{
    search::first_below(count, |n| is_misplaced(resource, greatest, n))
}
