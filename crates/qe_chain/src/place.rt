//! Where keys stand in chains.

ghost use Rattle.std.specs.Prelude.{◌≡◌, ◌<◌, true, false, length, slice_index_or, MatchOption};
ghost use Rattle.std.specs.Ordering.{eq_by_cmp};
ghost use Rattle.def_core.specs.Needs.{is_in};

/// A place in the chains: which of the callers, and which of the keys of its chain, both from 0.
#[derive(Clone, Copy)]
pub(crate) struct Place {
    pub(crate) caller: usize,
    pub(crate) index: usize,
}

// The first place at which a key stands in a list.
pub(crate) fn index_of<K: Ord>(keys: &[K], key: &K) -> Option<usize>
    ensures { MatchOption result (is_in K.cmp key.now keys.now ≡ false)
        (λ at. (at < length keys.now)
        × ((d : K) → eq_by_cmp K.cmp key.now (slice_index_or keys.now at d) ≡ true)) }
{
    for (at, found) in keys.iter().enumerate() {
        if key.cmp(found).is_eq() {
            return Some(at);
        }
    }
    None
}
