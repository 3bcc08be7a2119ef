//! Forms that are complete around a value.

ghost use Rattle.std.specs.Prelude.{◌≡◌, ℕ, List, IfOk};
ghost use Rattle.def_tree.specs.Operator as operators;
ghost use Rattle.sl_tree.specs.View.{expr_in, operator_of};
ghost use Rattle.def_reading.specs.Machine as machine;
ghost use Rattle.sl_machine.specs.Framed.{frames_in, held_in};
ghost use Rattle.sl_machine.specs.Kept.{kept_held};

use crate::frames::Frames;
use sl_base::NoMemory;
use sl_tree::{ExprTree, Operator};
use std::alloc::Global;

/// The level of an operator, from the weakest. Levels are numbered from 1.
pub fn level(operator: Operator) -> u32
    ensures { result ≡ operators.level (operator_of operator) }
{
    match operator {
        Operator::Or => 1,
        Operator::And => 2,
        Operator::BitOr => 3,
        Operator::BitXor => 4,
        Operator::BitAnd => 5,
        Operator::Equal | Operator::NotEqual => 6,
        Operator::Less | Operator::LessEqual | Operator::Greater | Operator::GreaterEqual => 7,
        Operator::ShiftLeft | Operator::ShiftRight => 8,
        Operator::Add | Operator::Subtract => 9,
        Operator::Multiply | Operator::Divide | Operator::Remainder => 10,
    }
}

/// The value with the forms around it that are complete before an operator of this level; a leaf in place of these,
/// where trees are not kept.
pub fn bound(
    alloc: Global,
    frames: &mut Frames,
    least: u32,
    value: ExprTree,
    keep: bool,
) -> Result<ExprTree, NoMemory>
    ensures { (source : List ℕ) → IfOk result (λ whole. kept_held keep (held_in source whole frames.new)
        ≡ kept_held keep (machine.bound least (expr_in source value) (frames_in source frames.old))) }
{
    let mut whole = value;
    while let Some(frame) = frames.pop() {
        if !frame.binds(least) {
            frames.push(frame)?;
            return Ok(whole);
        }
        whole = frame.joined(alloc, whole, keep)?;
    }
    Ok(whole)
}

/// The whole expression that ends with the value; a leaf in place of what is not the value alone, where trees are not
/// kept.
pub fn whole(
    alloc: Global,
    frames: &mut Frames,
    value: ExprTree,
    keep: bool,
) -> Result<ExprTree, NoMemory>
    ensures { (source : List ℕ) → IfOk result (λ whole. kept_held keep (held_in source whole frames.new)
        ≡ kept_held keep (machine.whole (expr_in source value) (frames_in source frames.old))) }
{
    let mut whole = value;
    while let Some(frame) = frames.pop() {
        if !frame.closes() {
            frames.push(frame)?;
            return Ok(whole);
        }
        whole = frame.joined(alloc, whole, keep)?;
    }
    Ok(whole)
}
