//! Shapes of elements.

use sqlite_items::Items;

/// Of what an element is made: a number, or a struct with the shapes of its fields in order.
#[derive(Debug, Drop)]
pub enum Shape {
    Int,
    Uint,
    Fields(Items<Shape>),
}
