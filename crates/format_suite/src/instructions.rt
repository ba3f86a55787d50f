ghost use Rattle.std.specs.Prelude.{◌≡◌, length};

use crate::checks::check_equal;
use guest_isa::*;
use std::alloc::{AllocError, Global};
use std::process::Abort;
use std::test::Fail;

const NOTHING: Instr = Instr {
    op: Op::Halt,
    rd: 0,
    ra: 0,
    rb: 0,
    imm: 0,
};

/// The bytes of an instruction, and the instruction of these bytes.
fn coded(rt: &impl Abort, instruction: &Instr) -> ([u8; 8], Option<Instr>) {
    assert!(rt; instruction.is_instruction());
    let bytes = encode(instruction);
    (bytes, decode(&bytes))
}

#[test]
fn bytes_of_instructions(rt: HostRuntime) {
    let rows = [
        // LI r1, 7 / STW r1, r0, 0 / LDW r2, r0, 0 / HALT
        (
            [1, 1, 0, 0, 7, 0, 0, 0],
            Instr {
                op: Op::Li,
                rd: 1,
                imm: 7,
                ..NOTHING
            },
        ),
        (
            [35, 0, 0, 1, 0, 0, 0, 0],
            Instr {
                op: Op::Stw,
                rb: 1,
                ..NOTHING
            },
        ),
        (
            [33, 2, 0, 0, 0, 0, 0, 0],
            Instr {
                op: Op::Ldw,
                rd: 2,
                ..NOTHING
            },
        ),
        ([37, 0, 0, 0, 0, 0, 0, 0], NOTHING),
        // ADDI r4, r0, -1
        (
            [16, 4, 0, 0, 255, 255, 255, 255],
            Instr {
                op: Op::Addi,
                rd: 4,
                imm: u32::MAX,
                ..NOTHING
            },
        ),
    ];
    for (bytes, i) in rows {
        check_equal(&rt, coded(&rt, &i), (bytes, Some(i)));
    }
}

#[test]
fn bytes_of_no_instruction(rt: HostRuntime) {
    let rows = [
        [0, 0, 0, 0, 0, 0, 0, 0],
        [22, 0, 0, 0, 0, 0, 0, 0],
        [31, 0, 0, 0, 0, 0, 0, 0],
        [38, 0, 0, 0, 0, 0, 0, 0],
        [3, 16, 0, 0, 0, 0, 0, 0],
        [3, 1, 1, 1, 0, 0, 0, 0],
        [4, 1, 1, 1, 1, 0, 0, 0],
        [37, 0, 0, 0, 0, 0, 0, 1],
    ];
    for bytes in rows {
        check_equal(&rt, (bytes, decode(&bytes)), (bytes, None));
    }
}

/// Whether an operation is private, whether it is shared, and whether it has a target.
fn kinds_of(op: Op) -> [bool; 3] {
    [op.is_private(), op.is_shared(), op.has_target()]
}

#[test]
fn kinds_of_operations(rt: HostRuntime) {
    // The opcode, whether it is private, and whether it has a target.
    let rows = [
        (Op::Li, 1, true, false),
        (Op::Jmp, 17, true, true),
        (Op::Jal, 20, true, true),
        (Op::Jr, 21, true, false),
        (Op::Ldb, 32, false, false),
        (Op::Halt, 37, false, false),
    ];
    for (op, number, private, target) in rows {
        let named = (op.number(), Op::from_number(number));
        check_equal(&rt, named, (number, Some(op)));
        check_equal(&rt, (op, kinds_of(op)), (op, [private, !private, target]));
    }
    check_equal(
        &rt,
        Op::Stb.form(),
        Form {
            rd: false,
            ra: true,
            rb: true,
            imm: true,
        },
    );
}

#[test]
fn signed_immediates(rt: HostRuntime) {
    let rows = [
        (0, 0),
        (0x7fff_ffff, 0x7fff_ffff),
        (0x8000_0000, 0xffff_ffff_8000_0000),
        (0xffff_ffff, u64::MAX),
    ];
    for (imm, number) in rows {
        check_equal(&rt, Instr { imm, ..NOTHING }.sx(), number);
    }
}

/// The length of a text, its first two instructions and the first of its copy, and the length of its list.
fn shown(alloc: Global, text: Text) -> Result<(usize, [Instr; 3], usize), AllocError>
    requires { length text ≡ 2 }
{
    let len = text.len();
    let copy = text.copy(alloc)?;
    let instructions = [*text.get(0), *text.get(1), *copy.get(0)];
    Ok((len, instructions, text.into_vec().len()))
}

#[test]
#[tactic(auto, unfolding(guest_isa::specs::Instructions::is_instruction))]
fn a_text_is_its_instructions(rt: HostRuntime) -> Result<(), Fail> {
    let jump = Instr {
        op: Op::Jmp,
        ..NOTHING
    };
    let text = Text::of(Vec::from_slice(rt.alloc(), &[jump, NOTHING])?);
    let shown = shown(rt.alloc(), text)?;
    spelling_is_inverse();
    check_equal(&rt, shown, (2, [jump, NOTHING, jump], 2));
    Ok(())
}
