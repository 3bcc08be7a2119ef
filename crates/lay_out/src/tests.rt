ghost use Rattle.std.specs.Prelude.{◌≡◌, ◌*◌, ◌^◌, ◌<◌, IfOk, length};
ghost use Rattle.def_layout.specs.Shape.{HasLeaves, leaf_count};
ghost use Rattle.lay_out.specs.View.{shape_in};
ghost use Rattle.lay_out.specs.Samples.{nested, pair};

use crate::{BindRefusal, Scalar, Shape, Slot, Wanted, bind, layout};
use sl_base::List;
use sqlite_items::Items;
use std::alloc::Global;
use std::process::Abort;
use std::test::Fail;

#[test]
fn a_struct_in_a_struct_is_laid_out(rt: HostRuntime) -> Result<(), Fail> {
    let shape = nested_shape(rt.alloc())?;
    let laid = layout(rt.alloc(), &shape)?;
    assert_eq!(rt; (laid.size, laid.align, laid.stride), (16, 4, 16));
    let wanted: [(&[u32], u32, Scalar); 4] = [
        (&[0], 0, Scalar::Int),
        (&[1, 0], 4, Scalar::Uint),
        (&[1, 1], 8, Scalar::Uint),
        (&[2], 12, Scalar::Int),
    ];
    assert_eq!(rt; laid.leaves.len(), wanted.len());
    for (leaf, (path, offset, scalar)) in laid.leaves.as_slice().iter().zip(&wanted) {
        assert_eq!(rt; leaf.path.as_slice(), *path);
        assert_eq!(rt; leaf.offset, *offset);
        assert_eq!(rt; leaf.scalar, *scalar);
    }
    Ok(())
}

#[test]
fn structs_of_sixty_four_levels_with_a_thousand_numbers_are_laid_out(
    rt: HostRuntime,
) -> Result<(), Fail> {
    let shape = deep_shape(rt.alloc(), 64)?;
    let laid = layout(rt.alloc(), &shape)?;
    assert_eq!(rt; (laid.size, laid.align, laid.stride), (4096, 4, 4096));
    assert_eq!(rt; laid.leaves.len(), 1024);
    match laid.leaves.as_slice().last() {
        None => assert_eq!(rt; true, false),
        Some(leaf) => {
            assert_eq!(rt; leaf.path.len(), 64);
            assert_eq!(rt; leaf.offset, 4092);
        }
    }
    Ok(())
}

// Structs one in the other, with 16 numbers at each level, the deepest ones last.
#[tactic(auto, using(crate::proofs::Shapes::shape_forms))]
fn deep_shape(alloc: Global, levels: u32) -> Result<Shape, Fail>
    requires { 0 < levels }
    ensures { IfOk result (λ shape. HasLeaves (shape_in shape) × (leaf_count (shape_in shape) ≡ 16 * levels)) }
{
    let mut fields = vec![in alloc;
        Shape::Int,
        Shape::Int,
        Shape::Int,
        Shape::Int,
        Shape::Int,
        Shape::Int,
        Shape::Int,
        Shape::Int,
        Shape::Int,
        Shape::Int,
        Shape::Int,
        Shape::Int,
        Shape::Int,
        Shape::Int,
        Shape::Int,
        Shape::Int,
    ]?;
    if levels > 1 {
        fields.push(deep_shape(alloc, levels - 1)?)?;
    }
    Ok(Shape::Fields(Items::from_vec(fields)))
}

// A struct of a number, a pair and a number.
#[tactic(auto, using(crate::proofs::Shapes::shape_forms))]
fn nested_shape(alloc: Global) -> Result<Shape, Fail>
    ensures { IfOk result (λ shape. shape_in shape ≡ nested) }
{
    let inner = pair_shape(alloc)?;
    let fields = vec![in alloc; Shape::Int, inner, Shape::Int]?;
    Ok(Shape::Fields(Items::from_vec(fields)))
}

// A struct of two numbers.
#[tactic(auto, using(crate::proofs::Shapes::shape_forms))]
fn pair_shape(alloc: Global) -> Result<Shape, Fail>
    ensures { IfOk result (λ shape. shape_in shape ≡ pair) }
{
    let fields = vec![in alloc; Shape::Uint, Shape::Uint]?;
    Ok(Shape::Fields(Items::from_vec(fields)))
}

#[test]
fn buffers_are_bound_to_the_first_slots_that_are_free(rt: HostRuntime) -> Result<(), Fail> {
    let none = bound(rt.alloc(), &[]);
    assert!(rt; is_bound_to(none, &[]));
    let between = bound(rt.alloc(), &[Wanted::Any, at(0, 1), Wanted::Any]);
    assert!(rt; is_bound_to(between, &[slot(0, 0), slot(0, 1), slot(0, 2)]));
    let later = [Wanted::Any, Wanted::Any, at(0, 0), at(0, 2), Wanted::Any];
    let later_slots = [slot(0, 1), slot(0, 3), slot(0, 0), slot(0, 2), slot(0, 4)];
    assert!(rt; is_bound_to(bound(rt.alloc(), &later), &later_slots));
    let other_sets = [at(1, 0), Wanted::Any, at(0, 1), at(1, 1), Wanted::Any];
    let other_slots = [slot(1, 0), slot(0, 0), slot(0, 1), slot(1, 1), slot(0, 2)];
    assert!(rt; is_bound_to(bound(rt.alloc(), &other_sets), &other_slots));
    let falling = [at(0, 2), at(0, 1), Wanted::Any, Wanted::Any];
    let falling_slots = [slot(0, 2), slot(0, 1), slot(0, 0), slot(0, 3)];
    assert!(rt; is_bound_to(bound(rt.alloc(), &falling), &falling_slots));
    Ok(())
}

#[test]
fn the_first_buffer_that_wants_a_slot_again_is_told(rt: HostRuntime) {
    let two = bound(rt.alloc(), &[at(0, 0), at(0, 0)]);
    assert!(rt; is_clash(two, 0, 1));
    let nested = bound(rt.alloc(), &[at(0, 0), at(0, 1), at(0, 1), at(0, 0)]);
    assert!(rt; is_clash(nested, 1, 2));
    let three = bound(
        rt.alloc(),
        &[Wanted::Any, at(1, 3), at(0, 3), at(1, 3), at(1, 3)],
    );
    assert!(rt; is_clash(three, 1, 3));
}

// The slots of buffers.
fn bound(alloc: Global, wanted: &[Wanted]) -> Result<List<Slot>, BindRefusal>
    requires { length wanted.now < 2 ^ 32 }
{
    let params = List::from_slice(alloc, wanted)?;
    bind(alloc, &params)
}

// Whether these slots were answered.
fn is_bound_to(answer: Result<List<Slot>, BindRefusal>, slots: &[Slot]) -> bool {
    match answer {
        Ok(bound) => bound.as_slice() == slots,
        Err(_) => false,
    }
}

// Whether the clash of two buffers was answered.
fn is_clash(answer: Result<List<Slot>, BindRefusal>, first: u32, second: u32) -> bool {
    match answer {
        Ok(_) => false,
        Err(refusal) => refusal == BindRefusal::Clash { first, second },
    }
}

// A buffer that wants a slot.
fn at(set: u32, binding: u32) -> Wanted {
    Wanted::At(slot(set, binding))
}

// A slot.
fn slot(set: u32, binding: u32) -> Slot {
    Slot { set, binding }
}
