//! The best of lists of costs.

ghost use Rattle.std.specs.Prelude.{◌^◌, ◌<◌, length};
ghost use Rattle.qs_overload.specs.Best.{Best, HaveOneLength};

use crate::unbeaten::{a_best, next_unbeaten};
use sl_base::List;

/// What was picked of lists, whose numbers count from 0.
#[derive(Clone, Copy, Debug, PartialEq, Eq)]
pub enum Picked {
    /// The one list that no other beats, which beats each other one.
    One(u32),
    /// There is no list.
    Nobody,
    /// The first two lists that no other beats.
    Tie(u32, u32),
}

/// The best of lists of costs, each of which has one cost for each argument of a call: a list beats another where it is
/// at most the other in every place and less in some. The lists have one length, and there are fewer than 2 to the 32.
/// The call takes no memory. It looks at each list twice where one is the best, and at each pair of lists at most.
pub fn pick(costs: &List<List<u32>>) -> Picked
    requires few { length costs.now < 2 ^ 32 }
    requires one_length { HaveOneLength costs.now }
    ensures { Best costs.now result }
{
    let costs = costs.as_slice();
    if costs.is_empty() {
        return Picked::Nobody;
    }
    let best = a_best(costs);
    match next_unbeaten(costs, 0, best) {
        None => Picked::Nobody,
        Some(first) => match next_unbeaten(costs, first + 1, best) {
            None => Picked::One(first as u32),
            Some(second) => Picked::Tie(first as u32, second as u32),
        },
    }
}
