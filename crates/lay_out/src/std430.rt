//! The layout of elements.

ghost use Rattle.std.specs.Prelude.{◌≡◌, ◌+◌, ◌*◌, ◌^◌, ◌<◌, ◌≤◌, IfOk, length, map};
ghost use Rattle.def_layout.specs.Shape.{HasLeaves, HaveLeaves, Single, Struct, leaf_count, leaf_counts};
ghost use Rattle.def_layout.specs.Std430.{IsLaidOut, IsNextMultiple};
ghost use Rattle.lay_out.specs.Takes.{IsPart};
ghost use Rattle.lay_out.specs.View.{shape_in, shapes_in};

use crate::found::{Found, append, into_leaves};
use crate::shape::Shape;
use def_layout::{Laid, Scalar};
use sl_base::NoMemory;
use std::alloc::Global;

/// What a shape takes: its bytes, its alignment, and the numbers in it.
#[derive(Debug, Drop)]
pub struct Part {
    pub size: u32,
    pub align: u32,
    pub found: Vec<Found>,
}

/// The layout std430 of an array whose elements have this shape (OpenGL 4.6, 7.6.2.2): each struct in it has a number,
/// and there are at most 1,024. The call goes as deep as the shape does. The only error is that memory ran out.
pub fn layout(alloc: Global, shape: &Shape) -> Result<Laid, NoMemory>
    requires full { HasLeaves (shape_in shape.now) }
    requires few { leaf_count (shape_in shape.now) ≤ 1024 }
    ensures { IfOk result (λ laid. IsLaidOut (shape_in shape.now) laid) }
{
    let Part { size, align, found } = lay(alloc, shape)?;
    Ok(Laid {
        size,
        align,
        stride: next_multiple(align, size),
        leaves: into_leaves(alloc, found)?,
    })
}

// What a shape takes.
#[cycle(parts)]
fn lay(alloc: Global, shape: &Shape) -> Result<Part, NoMemory>
    requires full { HasLeaves (shape_in shape.now) }
    requires few { leaf_count (shape_in shape.now) ≤ 1024 }
    ensures { IfOk result (λ part. IsPart (shape_in shape.now) part) }
{
    match shape {
        Shape::Int => lay_scalar(alloc, Scalar::Int),
        Shape::Uint => lay_scalar(alloc, Scalar::Uint),
        Shape::Fields(fields) => lay_fields(alloc, fields.as_slice()),
    }
}

// What a struct takes with fields of these shapes.
#[cycle(parts)]
fn lay_fields(alloc: Global, fields: &[Shape]) -> Result<Part, NoMemory>
    requires full { HaveLeaves (shapes_in fields.now) }
    requires few { leaf_counts (shapes_in fields.now) ≤ 1024 }
    ensures { IfOk result (λ part. IsPart (Struct (shapes_in fields.now)) part) }
{
    let mut end: u32 = 0;
    let mut align: u32 = 1;
    let mut found = Vec::new(alloc);
    for (number, field) in fields.iter().enumerate() {
        let inner = lay(alloc, field)?;
        let offset = next_multiple(inner.align, end);
        append(&mut found, inner.found, number as u32, offset)?;
        end = offset + inner.size;
        align = align.max(inner.align);
    }
    Ok(Part {
        size: next_multiple(align, end),
        align,
        found,
    })
}

// What a number takes.
fn lay_scalar(alloc: Global, scalar: Scalar) -> Result<Part, NoMemory>
    ensures { IfOk result (λ part. IsPart (Single scalar) part) }
{
    let mut found = Vec::new(alloc);
    found.push(Found {
        outwards: Vec::new(alloc),
        offset: 0,
        scalar,
    })?;
    Ok(Part {
        size: scalar.bytes(),
        align: scalar.bytes(),
        found,
    })
}

// The first multiple of a unit that is not below a number.
fn next_multiple(unit: u32, from: u32) -> u32
    requires some { 0 < unit }
    requires fits { from + unit < 2 ^ 32 }
    ensures { IsNextMultiple unit from result }
{
    from.next_multiple_of(unit)
}
