use super::*;
use sl_base::{List, NoMemory};
use sp_places::Places;
use sp_words::{Inst, Words, opcode};
use std::alloc::Global;
use std::test::Fail;

fn inst(alloc: Global, op: u16, operands: &[u32]) -> Result<Inst, NoMemory> {
    let mut list = List::new(alloc);
    list.extend_from_slice(operands)?;
    Ok(Inst { op, operands: list })
}

#[test]
fn a_merge_block_that_two_headers_share_is_broken_at_the_second(
    rt: HostRuntime,
) -> Result<(), Fail> {
    let mut insts = List::new(rt.alloc());
    insts.push(inst(rt.alloc(), opcode::SELECTION_MERGE, &[1, 0])?)?;
    insts.push(inst(rt.alloc(), opcode::LOOP_MERGE, &[2, 3, 0])?)?;
    insts.push(inst(rt.alloc(), opcode::LOOP_MERGE, &[1, 4, 0])?)?;
    let words = Words {
        generator: 0,
        bound: 5,
        insts,
    };
    let places = Places::new(rt.alloc(), &words)?;
    let merges = Merges::new(rt.alloc(), &places)?;
    assert_eq!(rt; merges.differ(&places, 0), true);
    assert_eq!(rt; merges.differ(&places, 1), true);
    assert_eq!(rt; merges.differ(&places, 2), false);
    assert_eq!(rt; merges.differ(&places, 3), true);
    Ok(())
}

#[test]
fn a_continue_target_that_two_loops_share_is_broken_at_the_second(
    rt: HostRuntime,
) -> Result<(), Fail> {
    let mut insts = List::new(rt.alloc());
    insts.push(inst(rt.alloc(), opcode::LOOP_MERGE, &[1, 2, 0])?)?;
    insts.push(inst(rt.alloc(), opcode::SELECTION_MERGE, &[2, 0])?)?;
    insts.push(inst(rt.alloc(), opcode::LOOP_MERGE, &[3, 2, 0])?)?;
    let words = Words {
        generator: 0,
        bound: 4,
        insts,
    };
    let places = Places::new(rt.alloc(), &words)?;
    let merges = Merges::new(rt.alloc(), &places)?;
    assert_eq!(rt; merges.differ(&places, 0), true);
    assert_eq!(rt; merges.differ(&places, 1), true);
    assert_eq!(rt; merges.differ(&places, 2), false);
    Ok(())
}
