ghost use Rattle.std.specs.Prelude.{◌≡◌};
ghost use Rattle.guest_call.specs.Guest as spec;

use lwc_base::Regs;

/// The registers after a call that answers with a value: r0 has it, and the next instruction comes.
pub fn with_answer(regs: &Regs, value: u64) -> Regs
    ensures { result ≡ spec.with_answer regs.now value }
{
    let mut r = regs.r;
    r[0] = value;
    Regs {
        r,
        pc: regs.pc.wrapping_add(1),
    }
}
