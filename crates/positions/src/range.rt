// Rule 16: points, states and places within their counts.
ghost use Rattle.std.specs.Prelude.{◌≡◌, ◌≤◌};
ghost use Rattle.refusals.specs.Search.{all_below};
ghost use Rattle.positions.specs.Rules.{state_fits, place_fits, is_position};

use crate::{Configuration, Sizes};
use refusals::search;

// Whether each state is below its resource's count.
#[tactic(auto, unfolding(crate::specs::Rules::state_fits))]
fn states_fit(sizes: &Sizes, state: &[u8; 6]) -> bool
    ensures { result ≡ all_below (state_fits sizes.now state.now) 6 }
{
    search::all_below(6, |k| (state[k] as usize) < sizes.states[k])
}

// Whether each part below P is at a place that is there, and each other part at 0.
#[tactic(auto, unfolding(crate::specs::Rules::place_fits, crate::specs::Rules::place_count))]
fn places_fit(sizes: &Sizes, place: &[u8; 8]) -> bool
    requires { sizes.now.resources ≤ 6 }
    ensures { result ≡ all_below (place_fits sizes.now place.now) 8 }
{
    search::all_below(8, |n| {
        let places = if n < sizes.parts {
            sizes.resources + 1
        } else {
            1
        };
        (place[n] as usize) < places
    })
}

// Whether rule 16 accepts a point and a configuration.
#[tactic(auto, unfolding(crate::specs::Rules::is_position))]
pub fn is_position(sizes: Sizes, point: u8, configuration: Configuration) -> bool
    requires { sizes.resources ≤ 6 }
    ensures { result ≡ is_position sizes point configuration }
{
    (point as usize) < sizes.points
        && states_fit(&sizes, &configuration.state)
        && places_fit(&sizes, &configuration.place)
}
