use super::*;
use sl_base::{List, NoMemory};
use sp_places::Places;
use sp_words::{Inst, Words, opcode};
use std::alloc::Global;
use std::test::Fail;

fn inst(alloc: Global, op: u16, operands: &[u32]) -> Result<Inst, NoMemory> {
    let mut list = List::new(alloc);
    list.extend_from_slice(operands)?;
    Ok(Inst { op, operands: list })
}

#[test]
fn a_type_of_width_16_and_a_use_of_no_id_are_broken_where_they_stand(
    rt: HostRuntime,
) -> Result<(), Fail> {
    let mut insts = List::new(rt.alloc());
    insts.push(inst(rt.alloc(), opcode::CAPABILITY, &[1])?)?;
    insts.push(inst(rt.alloc(), opcode::MEMORY_MODEL, &[0, 1])?)?;
    insts.push(inst(rt.alloc(), opcode::TYPE_INT, &[1, 16, 0])?)?;
    insts.push(inst(rt.alloc(), opcode::CONSTANT, &[5, 2, 7])?)?;
    let words = Words {
        generator: 0,
        bound: 3,
        insts,
    };
    let places = Places::new(rt.alloc(), &words)?;
    assert_eq!(rt; first_break(&places, Rule::Layout), None);
    assert_eq!(rt; first_break(&places, Rule::Capability), None);
    assert_eq!(rt; first_break(&places, Rule::MemoryModel), None);
    assert_eq!(rt; first_break(&places, Rule::Operands), Some(2));
    assert_eq!(rt; first_break(&places, Rule::Definitions), Some(3));
    assert_eq!(rt; first_break(&places, Rule::EntryPoint), Some(4));
    Ok(())
}
