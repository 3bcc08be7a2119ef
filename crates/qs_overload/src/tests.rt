ghost use Rattle.std.specs.Prelude.{◌≡◌, IfOk, length};
ghost use Rattle.qs_overload.specs.Best.{HaveOneLength};

use crate::{Picked, pick};
use sl_base::List;
use std::alloc::Global;
use std::process::Abort;
use std::test::Fail;

#[test]
fn the_best_list_is_picked_or_the_first_two_tie(rt: HostRuntime) -> Result<(), Fail> {
    let cases: &[(&[[u32; 3]], Picked)] = &[
        (&[], Picked::Nobody),
        (&[[4, 4, 4]], Picked::One(0)),
        (&[[1, 0, 0], [0, 0, 0]], Picked::One(1)),
        (&[[0, 1, 0], [1, 0, 0]], Picked::Tie(0, 1)),
        (&[[0, 0, 0], [0, 0, 0]], Picked::Tie(0, 1)),
        (
            &[[2, 2, 0], [1, 1, 0], [0, 2, 0], [1, 0, 0], [0, 1, 9]],
            Picked::Tie(2, 3),
        ),
        (
            &[[1, 1, 1], [0, 2, 0], [1, 1, 0], [0, 1, 0]],
            Picked::One(3),
        ),
    ];
    for (lists, wanted) in cases {
        assert!(rt; lists.len() < 10);
        let costs = list_of(rt.alloc(), lists)?;
        assert_eq!(rt; pick(&costs), *wanted, "{lists:?}");
    }
    Ok(())
}

// The lists as `pick` takes them.
fn list_of(alloc: Global, lists: &[[u32; 3]]) -> Result<List<List<u32>>, Fail>
    ensures len { IfOk result (λ costs. length costs ≡ length lists.now) }
    ensures one_length { IfOk result HaveOneLength }
{
    let mut costs = List::new(alloc);
    for list in lists {
        costs.push(List::from_slice(alloc, list.as_slice())?)?;
    }
    Ok(costs)
}
