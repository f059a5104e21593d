// The rules on each chapter in turn, and what is counted on the way.
ghost use Rattle.std.specs.Prelude.{◌≡◌, ◌≤◌, length};
ghost use Rattle.chapters.specs.Records.{chapters_from};
ghost use Rattle.chapters.specs.Survey.{SeesAt, Surveyed, counted_with};

use crate::{Seen, Survey};
use refusals::Broken;

// What is counted with chapter k, which has so many points and parts.
#[tactic(auto, unfolding(crate::specs::Survey::counted_with))]
fn count(counts: Survey, k: usize, wanted: usize, points: usize, parts: usize) -> Survey
    requires before_bound { (counts.before ≤ 112) × (counts.all ≤ 112) }
    requires points_bound { points ≤ 16 }
    ensures { result ≡ counted_with counts k wanted points parts }
{
    Survey {
        own: if k == wanted { points } else { counts.own },
        before: if k < wanted {
            counts.before + points
        } else {
            counts.before
        },
        all: counts.all + points,
        most: points.max(counts.most),
        parts: parts.max(counts.parts),
    }
}

// Looks at chapter k. What is seen of the wanted one is known.
#[tactic(auto, using(crate::proofs::AcceptedChapters::seen_at))]
fn look_at(
    recipes: &[u8],
    plans: bool,
    wanted: usize,
    seen: Result<Seen, Broken>,
    k: usize,
) -> Result<Seen, Broken>
    requires { SeesAt plans (chapters_from recipes.now) wanted seen }
    ensures { SeesAt plans (chapters_from recipes.now) k result }
{
    if k == wanted {
        return seen;
    }
    let earlier = crate::is_earlier(recipes, k);
    crate::look(crate::chapter(recipes, k), plans, earlier)
}

// The rules on each chapter in turn, with what is counted.
pub fn survey(
    recipes: &[u8],
    number: usize,
    plans: bool,
    wanted: usize,
    seen: Result<Seen, Broken>,
) -> Result<Survey, Broken>
    requires number_value { number ≡ length (chapters_from recipes.now) }
    requires number_bound { number ≤ 8 }
    requires sees_at { SeesAt plans (chapters_from recipes.now) wanted seen }
    ensures { Surveyed plans (chapters_from recipes.now) wanted result }
{
    let mut counts = Survey {
        own: 0,
        before: 0,
        all: 0,
        most: 0,
        parts: 0,
    };
    for k in 0..number {
        let here = look_at(recipes, plans, wanted, seen, k)?;
        counts = count(counts, k, wanted, here.points, here.parts);
    }
    Ok(counts)
}
