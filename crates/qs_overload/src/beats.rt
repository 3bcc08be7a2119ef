//! Lists of costs beside each other.

ghost use Rattle.std.specs.Prelude.{◌≡◌, ◌↔◌, IsTrue, length};
ghost use Rattle.qs_overload.specs.Best.{Beats};

use sl_base::List;

/// Whether a list is at most another one of its length in every place and less in some.
pub fn beats(one: &List<u32>, other: &List<u32>) -> bool
    requires { length one.now ≡ length other.now }
    ensures { IsTrue result ↔ Beats one.now other.now }
{
    is_better(one.as_slice(), other.as_slice())
}

// Whether costs are at most others, as many, in every place and less in some.
fn is_better(one: &[u32], other: &[u32]) -> bool
    requires { length one.now ≡ length other.now }
    ensures { IsTrue result ↔ Beats one.now other.now }
{
    let mut is_less = false;
    for (place, cost) in one.iter().enumerate() {
        if *cost > other[place] {
            return false;
        }
        if *cost < other[place] {
            is_less = true;
        }
    }
    is_less
}
