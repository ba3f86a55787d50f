ghost use Rattle.std.specs.Prelude.{◌≡◌, ◌<◌, ◌+◌, ◌%◌, ◌^◌, IfNone, IfSome, IsTrue, Some, false, slice_index};
ghost use Rattle.std.specs.Prelude.{slice_set, true};
ghost use Rattle.guest_isa.specs.Instructions.{IsInstruction};
ghost use Rattle.guest_isa.specs.Opcodes.{is_private, is_shared};
ghost use Rattle.guest_machine.specs.Effects.{quotient, remainder, effect};

use guest_isa::{Instr, Op};
use lwc_types::Regs;

/// What a private instruction does. Unless it says otherwise, pc grows by one, modulo 2^64.
#[derive(Clone, Copy, PartialEq, Eq)]
pub enum Effect {
    /// rd gets the number.
    Puts(u64),
    /// pc gets the number.
    Jumps(u64),
    /// rd gets pc + 1, and then pc gets the number.
    Links(u64),
    /// Nothing else.
    Passes,
}

/// The registers after a private instruction.
pub fn private(i: &Instr, regs: &Regs) -> Regs
    requires instruction { IsInstruction i.now }
    requires private { IsTrue (is_private i.now.op) }
    ensures { result ≡ effect i.now regs.now }
{
    let mut r = regs.r;
    match after_private(i, regs.pc, &mut r) {
        Some(pc) => Regs { r, pc },
        None => unreachable!(),
    }
}

/// Does a private instruction, which is at pc, on the registers, and answers the pc after it. A shared one
/// is not done.
#[inline(always)]
#[tactic(auto, using(guest_isa::proofs::Fields::in_range), unfolding(crate::specs::Effects::effect))]
pub(crate) fn after_private(i: &Instr, pc: u64, r: &mut [u64; 16]) -> Option<u64>
    requires { IsInstruction i.now }
    ensures done { IfSome result (λ next.
        record { r = r.new; pc = next } ≡ effect i.now (record { r = r.old; pc = pc })) }
    ensures private { IfSome result (λ next. is_shared i.now.op ≡ false) }
    ensures shared { IfNone result (is_shared i.now.op ≡ true) }
    ensures kept { IfNone result (r.new ≡ r.old) }
{
    match i.op {
        Op::Li => put(i.rd, u64::from(i.imm), pc, r),
        Op::Lih => put(
            i.rd,
            (u64::from(i.imm) << 32) | (get(i.rd, r) & 0xffff_ffff),
            pc,
            r,
        ),
        Op::Mov => put(i.rd, get(i.ra, r), pc, r),
        Op::Add => put(i.rd, get(i.ra, r).wrapping_add(get(i.rb, r)), pc, r),
        Op::Sub => put(i.rd, get(i.ra, r).wrapping_sub(get(i.rb, r)), pc, r),
        Op::Mul => put(i.rd, get(i.ra, r).wrapping_mul(get(i.rb, r)), pc, r),
        Op::Divu => put(i.rd, quotient(get(i.ra, r), get(i.rb, r)), pc, r),
        Op::Remu => put(i.rd, remainder(get(i.ra, r), get(i.rb, r)), pc, r),
        Op::And => put(i.rd, get(i.ra, r) & get(i.rb, r), pc, r),
        Op::Or => put(i.rd, get(i.ra, r) | get(i.rb, r), pc, r),
        Op::Xor => put(i.rd, get(i.ra, r) ^ get(i.rb, r), pc, r),
        Op::Shl => put(i.rd, get(i.ra, r) << (get(i.rb, r) % 64), pc, r),
        Op::Shr => put(i.rd, get(i.ra, r) >> (get(i.rb, r) % 64), pc, r),
        Op::Ltu => put(i.rd, u64::from(get(i.ra, r) < get(i.rb, r)), pc, r),
        Op::Eq => put(i.rd, u64::from(get(i.ra, r) == get(i.rb, r)), pc, r),
        Op::Addi => put(i.rd, get(i.ra, r).wrapping_add(i.sx()), pc, r),
        Op::Jmp => Some(u64::from(i.imm)),
        Op::Jz if get(i.ra, r) == 0 => Some(u64::from(i.imm)),
        Op::Jnz if get(i.ra, r) != 0 => Some(u64::from(i.imm)),
        Op::Jz | Op::Jnz => Some(pc.wrapping_add(1)),
        Op::Jal => {
            let _next = put(i.rd, pc.wrapping_add(1), pc, r);
            Some(u64::from(i.imm))
        }
        Op::Jr => Some(get(i.ra, r)),
        // Shared operations are done elsewhere.
        Op::Ldb | Op::Ldw | Op::Stb | Op::Stw | Op::Sys | Op::Halt => None,
    }
}

/// The number in a register.
#[inline(always)]
fn get(register: u8, r: &[u64; 16]) -> u64
    requires { register < 16 }
    ensures { result ≡ slice_index r.now register }
{
    r[register as usize]
}

/// Puts a number into a register, and answers the pc after this one.
#[inline(always)]
fn put(rd: u8, number: u64, pc: u64, r: &mut [u64; 16]) -> Option<u64>
    requires { rd < 16 }
    ensures next { result ≡ Some ((pc + 1) % 2 ^ 64) }
    ensures registers { r.new ≡ slice_set r.old rd number }
{
    r[rd as usize] = number;
    Some(pc.wrapping_add(1))
}

/// The quotient, rounded down; the greatest number if the divisor is 0.
fn quotient(dividend: u64, divisor: u64) -> u64
    ensures { result ≡ quotient dividend divisor }
{
    if divisor == 0 {
        u64::MAX
    } else {
        dividend / divisor
    }
}

/// The remainder; the dividend if the divisor is 0.
fn remainder(dividend: u64, divisor: u64) -> u64
    ensures { result ≡ remainder dividend divisor }
{
    if divisor == 0 {
        dividend
    } else {
        dividend % divisor
    }
}
