//! Numbers on the way out of the structs that hold them.

ghost use Rattle.std.specs.Prelude.{◌≡◌, ◌+◌, ◌^◌, ◌<◌, ◌++◌, All, IfOk, OnOk, length, map};
ghost use Rattle.def_layout.specs.Std430.{in_member};
ghost use Rattle.lay_out.specs.View.{leaf_of};

use def_layout::{Leaf, Scalar};
use sl_base::{List, NoMemory};
use std::alloc::Global;

/// A number in a shape, with the numbers of the fields that lead to it from the innermost struct on.
#[derive(Debug, Drop)]
pub struct Found {
    pub outwards: Vec<u32>,
    pub offset: u32,
    pub scalar: Scalar,
}

impl Found {
    /// The number with the numbers of its fields from the outermost struct on.
    pub fn into_leaf(self) -> Leaf
        ensures { result ≡ leaf_of self }
    {
        let mut path = self.outwards;
        path.reverse();
        Leaf {
            path: List::from_vec(path),
            offset: self.offset,
            scalar: self.scalar,
        }
    }

    /// The number, as one of the struct in which what holds it is the field of a number, at an offset.
    pub fn in_field(self, number: u32, offset: u32) -> Result<Found, NoMemory>
        requires { self.offset + offset < 2 ^ 32 }
        ensures { IfOk result (λ found. leaf_of found ≡ in_member number offset (leaf_of self)) }
    {
        let mut outwards = self.outwards;
        outwards.push(number)?;
        Ok(Found {
            outwards,
            offset: offset + self.offset,
            scalar: self.scalar,
        })
    }
}

/// Puts the numbers of a field at the end of those of the fields before it.
pub fn append(
    all: &mut Vec<Found>,
    more: Vec<Found>,
    number: u32,
    offset: u32,
) -> Result<(), NoMemory>
    requires { All (λ found. found.offset + offset < 2 ^ 32) more.items }
    ensures { OnOk result (map leaf_of all.new.items
        ≡ map leaf_of all.old.items ++ map (in_member number offset) (map leaf_of more.items)) }
{
    for found in more {
        all.push(found.in_field(number, offset)?)?;
    }
    Ok(())
}

/// The numbers with the numbers of their fields from the outermost struct on.
pub fn into_leaves(alloc: Global, all: Vec<Found>) -> Result<List<Leaf>, NoMemory>
    ensures { IfOk result (λ leaves. leaves ≡ map leaf_of all.items) }
{
    let mut leaves = List::new(alloc);
    for found in all {
        leaves.push(found.into_leaf())?;
    }
    Ok(leaves)
}
