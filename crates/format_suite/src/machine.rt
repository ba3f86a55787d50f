ghost use Rattle.std.specs.Prelude.{◌≡◌, IfOk};
ghost use Rattle.guest_isa.specs.Instructions.{IsText};

use crate::checks::check_equal;
use guest_isa::{Instr, Op, Text};
use guest_machine::*;
use lwc_base::Regs;
use std::alloc::{AllocError, Global};
use std::process::Abort;
use std::test::Fail;

const HALT: Instr = Instr {
    op: Op::Halt,
    rd: 0,
    ra: 0,
    rb: 0,
    imm: 0,
};

const MINUS_ONE: u64 = u64::MAX;

/// An instruction of this operation, with these registers and this number.
fn instruction(op: Op, rd: u8, ra: u8, rb: u8, imm: u32) -> Instr
    ensures { result ≡ record { op = op; rd = rd; ra = ra; rb = rb; imm = imm } }
{
    Instr {
        op,
        rd,
        ra,
        rb,
        imm,
    }
}

/// What an instruction of r1, r2 and r3 puts into r1.
fn put_by(rt: &impl Abort, op: Op, imm: u32, [d, a, b]: [u64; 3]) -> u64 {
    let form = op.form();
    let (rd, ra, rb) = (u8::from(form.rd), u8::from(form.ra), u8::from(form.rb));
    let i = instruction(op, rd, 2 * ra, 3 * rb, imm);
    assert!(rt; i.is_instruction() && op.is_private());
    let mut regs = Regs::fresh(7);
    regs.r[1] = d;
    regs.r[2] = a;
    regs.r[3] = b;
    let after = private(&i, &regs);
    assert!(rt; after.pc == 8);
    after.r[1]
}

#[test]
fn numbers_that_are_put(rt: HostRuntime) {
    let rows = [
        (Op::Lih, 1, [0xffff_ffff_0000_0005, 0, 0], 0x1_0000_0005),
        (Op::Mov, 0, [1, 2, 3], 2),
        (Op::Add, 0, [0, MINUS_ONE, 2], 1),
        (Op::Sub, 0, [0, 1, 2], MINUS_ONE),
        (Op::Mul, 0, [0, MINUS_ONE, MINUS_ONE], 1),
        (Op::Divu, 0, [0, MINUS_ONE, 2], 0x7fff_ffff_ffff_ffff),
        (Op::Remu, 0, [0, 7, 5], 2),
        (Op::And, 0, [0, 0b1100, 0b1010], 0b1000),
        (Op::Or, 0, [0, 0b1100, 0b1010], 0b1110),
        (Op::Xor, 0, [0, 0b1100, 0b1010], 0b0110),
        (Op::Shl, 0, [0, 3, 65], 6),
        (Op::Shr, 0, [0, MINUS_ONE, 127], 1),
        (Op::Ltu, 0, [0, 1, MINUS_ONE], 1),
        (Op::Ltu, 0, [0, MINUS_ONE, 1], 0),
        (Op::Eq, 0, [0, 5, 5], 1),
        (Op::Addi, 0xffff_fffe, [0, 5, 0], 3),
    ];
    for (op, imm, values, number) in rows {
        check_equal(&rt, (op, put_by(&rt, op, imm, values)), (op, number));
    }
}

/// pc and r1 after an instruction, from pc 7 with 9 in r2.
fn jumped(rt: &impl Abort, instruction: &Instr) -> (u64, u64) {
    assert!(rt; instruction.is_instruction() && instruction.op.is_private());
    let mut regs = Regs::fresh(7);
    regs.r[2] = 9;
    let after = private(instruction, &regs);
    (after.pc, after.r[1])
}

#[test]
fn places_that_are_jumped_to(rt: HostRuntime) {
    // The operation, its registers and its target, and pc and r1 after it.
    let rows = [
        (Op::Jmp, 0, 0, 3, (3, 0)),
        (Op::Jz, 0, 1, 3, (3, 0)),
        (Op::Jz, 0, 2, 3, (8, 0)),
        (Op::Jnz, 0, 1, 3, (8, 0)),
        (Op::Jnz, 0, 2, 3, (3, 0)),
        (Op::Jal, 1, 0, 3, (3, 8)),
        (Op::Jr, 0, 2, 0, (9, 0)),
    ];
    for (op, rd, ra, imm, left) in rows {
        let i = instruction(op, rd, ra, 0, imm);
        check_equal(&rt, (i, jumped(&rt, &i)), (i, left));
    }
}

/// The program text of these instructions.
fn text_of(alloc: Global, instructions: &[Instr]) -> Result<Text, AllocError>
    requires { IsText instructions.now }
    ensures { IfOk result (λ text. text ≡ instructions.now) }
{
    Ok(Text::of(Vec::from_slice(alloc, instructions)?))
}

/// Arithmetic of registers 1 to 5, two of them with the zero of register 0, and a halt.
#[tactic(auto, unfolding(guest_isa::specs::Instructions::is_instruction))]
fn arithmetic(alloc: Global) -> Result<Text, AllocError> {
    let instructions = [
        instruction(Op::Li, 1, 0, 0, 5),
        instruction(Op::Divu, 2, 1, 0, 0),
        instruction(Op::Remu, 3, 1, 0, 0),
        instruction(Op::Addi, 4, 0, 0, u32::MAX),
        instruction(Op::Shl, 5, 1, 4, 0),
        HALT,
    ];
    text_of(alloc, &instructions)
}

/// An advance of a thread that has all registers 0: what it begins with, pc after it, and what comes next, and then the
/// registers.
fn advanced(text: &Text) -> ((Regs, u64, Next), [u64; 16]) {
    let advance = advance(text, &Regs::fresh(0));
    let registers = advance.after.r;
    ((advance.before, advance.after.pc, advance.next), registers)
}

#[test]
fn arithmetic_upto_a_halt(rt: HostRuntime) -> Result<(), Fail> {
    let (left, registers) = advanced(&arithmetic(rt.alloc())?);
    let mut expected = [0; 16];
    expected[1] = 5;
    expected[2] = MINUS_ONE;
    expected[3] = 5;
    expected[4] = MINUS_ONE;
    expected[5] = 9223372036854775808;
    check_equal(&rt, left, (Regs::fresh(0), 5, Next::Shared(HALT)));
    check_equal(&rt, registers, expected);
    Ok(())
}

/// Counts down register 1, and goes on unless it is 0, with a halt behind or with nothing there.
#[tactic(auto, unfolding(guest_isa::specs::Instructions::is_instruction))]
fn countdown(alloc: Global, halts: bool) -> Result<Text, AllocError> {
    let down = instruction(Op::Addi, 1, 1, 0, u32::MAX);
    let again = instruction(Op::Jnz, 0, 1, 0, 0);
    if halts {
        text_of(alloc, &[down, again, HALT])
    } else {
        text_of(alloc, &[down, again])
    }
}

/// Register 1 and pc after an advance that begins with this in register 1, and what comes next.
fn counted(text: &Text, first: u64) -> (u64, u64, Next) {
    let mut regs = Regs::fresh(0);
    regs.r[1] = first;
    let advance = advance(text, &regs);
    (advance.after.r[1], advance.after.pc, advance.next)
}

/// The same from 127, 128 and 129, of which the last is not counted down in one advance.
fn counted_from(text: &Text) -> [(u64, u64, Next); 3] {
    [counted(text, 127), counted(text, 128), counted(text, 129)]
}

#[test]
fn what_comes_after_256_instructions(rt: HostRuntime) -> Result<(), Fail> {
    let open = countdown(rt.alloc(), false)?;
    let closed = countdown(rt.alloc(), true)?;
    let at_the_end = counted_from(&open);
    let at_the_halt = counted_from(&closed);
    let halt = Next::Shared(HALT);
    advance_is_determined();
    check_equal(
        &rt,
        at_the_end,
        [
            (0, 2, Next::BadPc),
            (0, 2, Next::BadPc),
            (1, 0, Next::Pause),
        ],
    );
    check_equal(
        &rt,
        at_the_halt,
        [(0, 2, halt), (0, 2, halt), (1, 0, Next::Pause)],
    );
    Ok(())
}
