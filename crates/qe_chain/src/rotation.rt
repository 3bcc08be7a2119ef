//! Cycles that begin at their least key.

ghost use Rattle.std.specs.Prelude.{◌≡◌, ◌<◌, ◌∷◌, ℕ, List, length, slice_index_or};
ghost use Rattle.std.specs.declared.cmp.Ordering.TheVariants.{Equal};
ghost use Rattle.def_query.specs.Keys.{AreDistinct};
ghost use Rattle.def_core.specs.Needs.{rotated, least};

use qe_rules::Cycle;

/// Begins a cycle of distinct keys at the least of them. Keys that compare equal are to be the same key.
/// It takes no memory, and compares as often as there are keys.
pub fn rotate<K: Ord + Drop>(cycle: &mut Cycle<K>)
    requires one_key { (x y : K) → K.cmp x y ≡ Equal → x ≡ y }
    requires distinct { AreDistinct cycle.old }
    ensures { cycle.new ≡ rotated K.cmp cycle.old }
{
    let least = least_place(cycle.as_slice());
    cycle.rotate_left(least);
}

// The place of the first key than which none is less.
fn least_place<K: Ord>(keys: &[K]) -> usize
    requires { 0 < length keys.now }
    ensures within { result < length keys.now }
    ensures least { (x : K) (rest : List K) → keys.now ≡ x ∷ rest →
        slice_index_or keys.now result x ≡ least K.cmp x rest }
{
    let mut least = 0;
    for i in 0..keys.len() {
        if keys[i].cmp(&keys[least]).is_lt() {
            least = i;
        }
    }
    least
}
