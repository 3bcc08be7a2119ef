//! Layouts.

use crate::scalar::Scalar;
use sl_base::List;

/// A number in an element: the numbers of the fields that lead to it, from the outermost struct on and counted from 0,
/// the byte of the element at which it begins, and what it is.
#[derive(Debug, Drop)]
pub struct Leaf {
    pub path: List<u32>,
    pub offset: u32,
    pub scalar: Scalar,
}

/// How the elements of an array lie: the bytes of one, its alignment, the bytes from where one begins to where the next
/// one does, and the numbers in each, in order.
#[derive(Debug, Drop)]
pub struct Laid {
    pub size: u32,
    pub align: u32,
    pub stride: u32,
    pub leaves: List<Leaf>,
}
