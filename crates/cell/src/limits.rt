// The rules on the limits of a record.
ghost use Rattle.std.specs.Prelude.{◌≡◌};
ghost use Rattle.refusals.specs.Search.{any_below};
ghost use Rattle.cell.specs.Rules.{limit_leaves_range, limits_absent};

use refusals::search;

// Whether some limit is outside 1 to 8.
#[tactic(auto, unfolding(crate::specs::Rules::limit_leaves_range, crate::specs::Rules::limit_in_range))]
pub fn any_out_of_range(limits: &[u8; 6]) -> bool
    ensures { result ≡ any_below (limit_leaves_range limits.now) 6 }
{
    search::any_below(6, |k| !(1..=8).contains(&limits[k]))
}

// Whether a resource from `from` on has another limit than 8.
#[tactic(auto, unfolding(crate::specs::Rules::limits_absent))]
pub fn any_limited(limits: &[u8; 6], from: usize) -> bool
    ensures { result ≡ any_below (limits_absent limits.now from) 6 }
{
    search::any_below(6, |k| from <= k && limits[k] != 8)
}
