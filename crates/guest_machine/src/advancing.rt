ghost use Rattle.std.specs.Prelude.{◌≡◌, ℕ, List, slice_get, Some, None, IfOk, IfErr, unwrap_or};
ghost use Rattle.guest_isa.specs.declared.instr.Instr.{Instr};
ghost use Rattle.guest_isa.specs.Instructions.{IsInstruction, IsText};
ghost use Rattle.lwc_types.specs.declared.regs.Regs.{Regs};
ghost use Rattle.guest_machine.specs.declared.progress.Advance.{Advance};
ghost use Rattle.guest_machine.specs.Advances.{stop, advanced, IfShared, IsAdvance, IsShared};

use crate::effect::after_private;
use crate::progress::{Advance, Next};
use guest_isa::{Instr, Text};
use lwc_types::Regs;

/// The most private instructions of one step.
const MOST: usize = 256;

/// Does private instructions from these registers on, at most 256: it ends before a shared instruction and
/// at a pc that is not below the number of instructions. It takes no memory.
pub fn advance(text: &Text, regs: &Regs) -> Advance
    ensures exact { result ≡ advanced text.now regs.now }
    ensures is_advance { (j : ℕ) × IsAdvance text.now result j }
    ensures shared { IfShared result.next IsShared }
{
    let mut after = *regs;
    let next = run_on(text, &mut after);
    Advance {
        before: *regs,
        after,
        next,
    }
}

/// `advance` in place: the registers become those after the private instructions. Answers what comes next.
#[inline(always)]
pub fn run_on(text: &Text, regs: &mut Regs) -> Next
    ensures exact { record { before = regs.old; after = regs.new; next = result }
        ≡ advanced text.now regs.old }
    ensures shared { IfShared result IsShared }
{
    let code = text.as_slice();
    let mut pc = regs.pc;
    for _done in 0..MOST {
        if pc >= code.len() as u64 {
            regs.pc = pc;
            return Next::BadPc;
        }
        let i = &code[pc as usize];
        match after_private(i, pc, &mut regs.r) {
            Some(next) => pc = next,
            None => {
                regs.pc = pc;
                return Next::Shared(*i);
            }
        }
    }
    regs.pc = pc;
    next_at(text, regs)
}

/// The instruction that comes next if it is private, and else what comes in its place.
fn private_at<'a>(text: &'a Text, regs: &Regs) -> Result<&'a Instr, Next>
    ensures instruction { IfOk result (λ i. IsInstruction i.now) }
    ensures found { IfOk result (λ i. slice_get text.now regs.now.pc ≡ Some i.now) }
    ensures private { IfOk result (λ i. stop text.now regs.now ≡ None) }
    ensures stop { IfErr result (λ next. stop text.now regs.now ≡ Some next) }
    ensures shared { IfErr result (λ next. IfShared next IsShared) }
{
    if regs.pc >= text.len() as u64 {
        return Err(Next::BadPc);
    }
    let i = text.get(regs.pc as usize);
    if i.op.is_shared() {
        Err(Next::Shared(*i))
    } else {
        Ok(i)
    }
}

/// What comes next after the most private instructions.
fn next_at(text: &Text, regs: &Regs) -> Next
    ensures value { result ≡ unwrap_or (stop text.now regs.now) Next.Pause }
    ensures shared { IfShared result IsShared }
{
    match private_at(text, regs) {
        Ok(_) => Next::Pause,
        Err(next) => next,
    }
}

/// From the same registers one advance alone has the facts of an advance.
pub fn advance_is_determined()
    ensures some { (text : List Instr) (s : Regs) → (j : ℕ) × IsAdvance text (advanced text s) j }
    ensures one { (text : List Instr) (a : Advance) (j : ℕ) →
        IsAdvance text a j → a ≡ advanced text a.before }
{}

/// The shared instruction that an advance over a text comes to is an instruction of the table.
#[tactic(auto, using(crate::proofs::Runs::comes_to_instruction))]
pub fn advances_come_to_instructions()
    ensures { (text : List Instr) (s : Regs) → IsText text → IfShared (advanced text s).next IsInstruction }
{}
