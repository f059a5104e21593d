// The limit of each resource, from the lines' numbers.
ghost use Rattle.std.specs.Prelude.{◌≡◌, ◌≤◌};
ghost use Rattle.refusals.specs.Search.{tabulate};
ghost use Rattle.limits.specs.Reader.{limit_by};

use refusals::search;
use std::array;

// The limit of resource k: 8 if no line has it.
#[tactic(auto, unfolding(crate::specs::Reader::limit_by, refusals::specs::Search::is_of))]
fn limit_of(resource: &[u8; 64], most: &[u8; 64], count: usize, k: usize) -> u8
    requires { count ≤ 64 }
    ensures { result ≡ limit_by resource.now most.now count 8 k }
{
    let n = search::first_below(count, |n| resource[n] as usize == k);
    if n < count { most[n] } else { 8 }
}

// The limits of all resources, by the two columns, as `limit_by` has them.
#[tactic(auto, unfolding(refusals::specs::Search::tabulate))]
pub fn all_limits(resource: &[u8; 64], most: &[u8; 64], count: usize) -> [u8; 6]
    requires { count ≤ 64 }
    ensures { result ≡ tabulate 6 (limit_by resource.now most.now count 8) }
{
    array::from_fn(|k| limit_of(resource, most, count, k))
}
