//! Where keys stand first.

ghost use Rattle.std.specs.Prelude.{◌≡◌, ℕ, ◌==◌, ◌&&◌, is_none, Some, if◌then◌else◌, OnOk, IfOk};
ghost use Rattle.std.specs.BTreeMap.{get};
ghost use Rattle.std.specs.Ordering.{nat_cmp};
ghost use Rattle.std.specs.List.{position_or_len};
ghost use Rattle.sp_places.specs.Index.{IsIndex};

use sl_base::NoMemory;
use std::alloc::Global;
use std::collections::BTreeMap;
use std::marker::Model;

/// Where each key of a list stands first.
#[derive(Drop)]
pub struct Index {
    keys: Vec<u64>,
    places: BTreeMap<u64, usize>,
}

impl Model for Index {
    ghost use Rattle.std.specs.Prelude.{ℕ, List};
    ghost use Rattle.sp_places.specs.Index.{IsIndex};

    ghost Value = { List ℕ };

    ghost view = { λ index. index.keys.items };

    ghost invariant = { λ index. IsIndex index.keys.items index.places };
}

impl Index {
    /// The index of keys, which contracts see as these keys.
    pub fn new(alloc: Global, keys: Vec<u64>) -> Result<Index, NoMemory>
        ensures { IfOk result (λ index. index ≡ keys.items) }
    {
        let places = first_places(alloc, keys.as_slice())?;
        Ok(Index { keys, places })
    }

    /// Where a key stands first, or how many keys there are where it does not stand.
    pub fn first(&self, key: u64) -> usize
        ensures { result ≡ position_or_len (λ other. other == key) self.now }
    {
        match self.places.get(&key) {
            Some(place) => *place,
            None => self.keys.as_slice().len(),
        }
    }
}

fn first_places(alloc: Global, keys: &[u64]) -> Result<BTreeMap<u64, usize>, NoMemory>
    ensures { IfOk result (λ places. IsIndex keys.now places) }
{
    let mut places = BTreeMap::new(alloc);
    for (place, key) in keys.iter().enumerate() {
        enter(&mut places, *key, place)?;
    }
    Ok(places)
}

fn enter(places: &mut BTreeMap<u64, usize>, key: u64, place: usize) -> Result<(), NoMemory>
    ensures { OnOk result ((other : ℕ) → get nat_cmp places.new other
        ≡ (if key == other && is_none (get nat_cmp places.old other) then Some place
        else get nat_cmp places.old other)) }
{
    if !places.contains_key(&key) {
        places.insert(key, place)?;
    }
    Ok(())
}
