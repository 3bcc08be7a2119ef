ghost use Rattle.std.specs.Prelude.{◌≡◌, IfOk};

use super::*;
use sl_base::{List, NoMemory};
use std::alloc::Global;
use std::test::Fail;

#[test]
fn module_without_instructions_is_its_header(rt: HostRuntime) -> Result<(), Fail> {
    let words = Words {
        generator: 0x0a0b_0c0d,
        bound: 29,
        insts: List::new(rt.alloc()),
    };
    let header: [u8; 20] = [
        0x03, 0x02, 0x23, 0x07, 0x00, 0x05, 0x01, 0x00, 0x0d, 0x0c, 0x0b, 0x0a, 0x1d, 0x00, 0x00,
        0x00, 0x00, 0x00, 0x00, 0x00,
    ];
    assert_eq!(rt; encode(rt.alloc(), &words)?.as_slice(), header.as_slice());
    Ok(())
}

fn inst(alloc: Global, op: u16, operands: &[u32]) -> Result<Inst, NoMemory>
    ensures { IfOk result (λ inst. inst.operands ≡ operands.now) }
{
    let mut list = List::new(alloc);
    list.extend_from_slice(operands)?;
    Ok(Inst { op, operands: list })
}

#[test]
fn instructions_follow_the_header_in_order(rt: HostRuntime) -> Result<(), Fail> {
    let mut entry_point = inst(rt.alloc(), opcode::ENTRY_POINT, &[5, 1])?;
    push_text(&mut entry_point.operands, b"main")?;
    entry_point.operands.extend_from_slice(&[2, 3])?;

    let mut insts = List::new(rt.alloc());
    insts.push(inst(
        rt.alloc(),
        opcode::CAPABILITY,
        &[enumerant::CAPABILITY_SHADER],
    )?)?;
    insts.push(inst(rt.alloc(), opcode::MEMORY_MODEL, &[0, 1])?)?;
    insts.push(entry_point)?;

    let words = Words {
        generator: 0,
        bound: 29,
        insts,
    };
    let bytes: [u8; 68] = [
        0x03, 0x02, 0x23, 0x07, 0x00, 0x05, 0x01, 0x00, 0x00, 0x00, 0x00, 0x00, 0x1d, 0x00, 0x00,
        0x00, 0x00, 0x00, 0x00, 0x00, 0x11, 0x00, 0x02, 0x00, 0x01, 0x00, 0x00, 0x00, 0x0e, 0x00,
        0x03, 0x00, 0x00, 0x00, 0x00, 0x00, 0x01, 0x00, 0x00, 0x00, 0x0f, 0x00, 0x07, 0x00, 0x05,
        0x00, 0x00, 0x00, 0x01, 0x00, 0x00, 0x00, 0x6d, 0x61, 0x69, 0x6e, 0x00, 0x00, 0x00, 0x00,
        0x02, 0x00, 0x00, 0x00, 0x03, 0x00, 0x00, 0x00,
    ];
    assert_eq!(rt; encode(rt.alloc(), &words)?.as_slice(), bytes.as_slice());
    Ok(())
}

#[test]
fn text_ends_with_a_zero_byte_and_zero_padding(rt: HostRuntime) -> Result<(), Fail> {
    let texts: [(&[u8], &[u32]); 4] = [
        (b"", &[0]),
        (b"b", &[0x62]),
        (b"abc", &[0x0063_6261]),
        (b"main", &[0x6e69_616d, 0]),
    ];
    for (text, words) in texts {
        let mut operands = List::new(rt.alloc());
        push_text(&mut operands, text)?;
        assert_eq!(rt; operands.as_slice(), words, "of {text:?}");
    }
    Ok(())
}

/// A header and `OpCapability Shader`.
const MODULE: [u8; 28] = [
    0x03, 0x02, 0x23, 0x07, 0x00, 0x05, 0x01, 0x00, 0x00, 0x00, 0x00, 0x00, 0x01, 0x00, 0x00, 0x00,
    0x00, 0x00, 0x00, 0x00, 0x11, 0x00, 0x02, 0x00, 0x01, 0x00, 0x00, 0x00,
];

#[test]
fn module_of_one_instruction_is_decoded(rt: HostRuntime) -> Result<(), Fail> {
    let words = decode(rt.alloc(), &MODULE)?;
    assert_eq!(rt;
        (words.generator, words.bound, words.insts.len()),
        (0, 1, 1)
    );
    for inst in words.insts.as_slice() {
        assert_eq!(rt; inst.op, opcode::CAPABILITY);
        assert_eq!(rt;
            inst.operands.as_slice(),
            [enumerant::CAPABILITY_SHADER].as_slice()
        );
    }
    Ok(())
}

#[test]
fn first_fault_of_bytes_is_told(rt: HostRuntime) -> Result<(), Fail> {
    let faults: [(usize, usize, u8, WordRefusal); 12] = [
        (27, 0, 0x03, WordRefusal::NotWords),
        (16, 0, 0x03, WordRefusal::NotWords),
        (28, 3, 0x06, WordRefusal::BadMagic),
        (28, 5, 0x04, WordRefusal::BadVersion),
        (28, 16, 0x01, WordRefusal::BadSchema),
        (24, 0, 0x03, WordRefusal::BadCount { at: 5 }),
        (28, 22, 0x00, WordRefusal::BadCount { at: 5 }),
        (28, 22, 0x03, WordRefusal::BadCount { at: 5 }),
        (28, 23, 0xff, WordRefusal::BadCount { at: 5 }),
        (28, 20, 0x00, WordRefusal::Unknown { at: 5, op: 0 }),
        (28, 20, 0x71, WordRefusal::Unknown { at: 5, op: 113 }),
        (28, 22, 0x01, WordRefusal::BadCount { at: 6 }),
    ];
    for (length, place, byte, refusal) in faults {
        let mut bytes = MODULE;
        if let Some(changed) = bytes.get_mut(place) {
            *changed = byte;
        }
        match decode(rt.alloc(), &bytes[..length.min(MODULE.len())]) {
            Ok(_) => panic!(rt; "decoded with {byte} at {place}"),
            Err(told) => assert_eq!(rt; told, refusal, "with {byte} at {place}"),
        }
    }
    Ok(())
}
