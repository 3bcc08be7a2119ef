use super::*;
use sl_base::{List, NoMemory};
use sp_words::{Inst, Words, opcode};
use std::alloc::Global;
use std::test::Fail;

fn inst(alloc: Global, op: u16, operands: &[u32]) -> Result<Inst, NoMemory> {
    let mut list = List::new(alloc);
    list.extend_from_slice(operands)?;
    Ok(Inst { op, operands: list })
}

#[test]
fn places_of_a_function_and_the_uses_of_its_entry_point(rt: HostRuntime) -> Result<(), Fail> {
    let mut insts = List::new(rt.alloc());
    let entry_point = [5, 1, 0x6e69_616d, 0, 2];
    insts.push(inst(rt.alloc(), opcode::ENTRY_POINT, &entry_point)?)?;
    insts.push(inst(rt.alloc(), opcode::FUNCTION, &[3, 1, 0, 4])?)?;
    insts.push(inst(rt.alloc(), opcode::LABEL, &[6])?)?;
    insts.push(inst(rt.alloc(), opcode::RETURN, &[])?)?;
    let words = Words {
        generator: 0,
        bound: 7,
        insts,
    };
    let places = Places::new(rt.alloc(), &words)?;
    let uses: [u32; 2] = [1, 2];
    assert_eq!(rt; places.uses(0), uses.as_slice());
    assert_eq!(rt; places.has_operands(0), true);
    assert_eq!(rt; places.place(1), 1);
    assert_eq!(rt; places.place(5), 4);
    assert_eq!(rt; places.result_type(1), 3);
    assert_eq!(rt; places.function(3), 2);
    assert_eq!(rt; places.block(3), 3);
    assert_eq!(rt; places.is_inside(3), true);
    assert_eq!(rt; places.first(opcode::RETURN), 3);
    Ok(())
}
