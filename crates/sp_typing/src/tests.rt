use super::*;
use sl_base::{List, NoMemory};
use sp_places::Places;
use sp_words::{Inst, Words, opcode};
use std::alloc::Global;
use std::test::Fail;

fn inst(alloc: Global, op: u16, operands: &[u32]) -> Result<Inst, NoMemory> {
    let mut list = List::new(alloc);
    list.extend_from_slice(operands)?;
    Ok(Inst { op, operands: list })
}

#[test]
fn a_sum_of_booleans_and_a_number_that_is_boolean_are_broken(rt: HostRuntime) -> Result<(), Fail> {
    let mut insts = List::new(rt.alloc());
    insts.push(inst(rt.alloc(), opcode::TYPE_BOOL, &[1])?)?;
    insts.push(inst(rt.alloc(), opcode::TYPE_INT, &[2, 32, 0])?)?;
    insts.push(inst(rt.alloc(), opcode::CONSTANT_TRUE, &[1, 3])?)?;
    insts.push(inst(rt.alloc(), opcode::CONSTANT, &[2, 4, 7])?)?;
    insts.push(inst(rt.alloc(), opcode::CONSTANT, &[1, 5, 7])?)?;
    insts.push(inst(rt.alloc(), opcode::INTEGER_ADD, &[2, 6, 4, 4])?)?;
    insts.push(inst(rt.alloc(), opcode::INTEGER_ADD, &[2, 7, 4, 3])?)?;
    let words = Words {
        generator: 0,
        bound: 8,
        insts,
    };
    let places = Places::new(rt.alloc(), &words)?;
    assert_eq!(rt; constants_fit(&places, 2), true);
    assert_eq!(rt; constants_fit(&places, 3), true);
    assert_eq!(rt; constants_fit(&places, 4), false);
    assert_eq!(rt; types_fit(&places, 5), true);
    assert_eq!(rt; types_fit(&places, 6), false);
    Ok(())
}

#[test]
fn a_return_of_nothing_where_a_number_is_returned_is_broken(rt: HostRuntime) -> Result<(), Fail> {
    let mut insts = List::new(rt.alloc());
    insts.push(inst(rt.alloc(), opcode::TYPE_INT, &[1, 32, 0])?)?;
    insts.push(inst(rt.alloc(), opcode::TYPE_FUNCTION, &[2, 1, 1])?)?;
    insts.push(inst(rt.alloc(), opcode::CONSTANT, &[1, 3, 7])?)?;
    insts.push(inst(rt.alloc(), opcode::FUNCTION, &[1, 4, 0, 2])?)?;
    insts.push(inst(rt.alloc(), opcode::FUNCTION_PARAMETER, &[1, 5])?)?;
    insts.push(inst(rt.alloc(), opcode::LABEL, &[6])?)?;
    insts.push(inst(rt.alloc(), opcode::FUNCTION_CALL, &[1, 7, 4, 3])?)?;
    insts.push(inst(rt.alloc(), opcode::FUNCTION_CALL, &[1, 8, 4])?)?;
    insts.push(inst(rt.alloc(), opcode::RETURN_VALUE, &[7])?)?;
    insts.push(inst(rt.alloc(), opcode::RETURN, &[])?)?;
    let words = Words {
        generator: 0,
        bound: 9,
        insts,
    };
    let places = Places::new(rt.alloc(), &words)?;
    let entry = entry_function(&places);
    assert_eq!(rt; types_fit(&places, 3), true);
    assert_eq!(rt; arguments_fit(&places, entry, 6), true);
    assert_eq!(rt; arguments_fit(&places, entry, 7), false);
    assert_eq!(rt; returns_fit(&places, 8), true);
    assert_eq!(rt; returns_fit(&places, 9), false);
    Ok(())
}
