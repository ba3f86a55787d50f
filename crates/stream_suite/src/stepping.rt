//! A kernel that is offered advances.

use crate::guests::run_of_three_steps;
use guest_machine::{advance, advance_is_determined};
use kernel_core::Kernel;
use lazy_world::LazyWorld;
use lwc_base::Regs;
use std::process::Abort;
use std::test::Fail;

/// The next instruction of a thread, and what is left of the work and of the room of its kernel.
type Left = (u64, u32, u32);

/// One step of the kernel's one thread, which is offered the advance of these registers, and what it leaves.
fn stepped<R: Abort>(rt: &R, kernel: &mut Kernel<LazyWorld>, before: &Regs) -> Left {
    assert!(rt; kernel.thread_count() == 1 && kernel.room() > 0);
    let offered = advance(kernel.text(), before);
    advance_is_determined();
    let turn = kernel
        .step(0, Some(&offered))
        .expect(rt, "memory for a step");
    (turn.same().regs.pc, kernel.work(), kernel.room())
}

/// The room, the work and the number of instructions of a kernel, and what its first two steps leave. The first is
/// offered the thread's registers, and the second registers that are not the thread's any more.
fn two_steps<R: AllocGlobal + Abort>(rt: &R) -> Result<((u32, u32, usize), [Left; 2]), Fail> {
    let mut kernel = run_of_three_steps(rt.alloc())?;
    let begun = (kernel.room(), kernel.work(), kernel.text().len());
    let first = stepped(rt, &mut kernel, &Regs::fresh(0));
    let second = stepped(rt, &mut kernel, &Regs::fresh(3));
    drop(kernel);
    Ok((begun, [first, second]))
}

#[test]
fn a_kernel_uses_only_an_advance_of_its_thread(rt: HostRuntime) -> Result<(), Fail> {
    let left = two_steps(&rt)?;
    // The registers are not the thread's at the second step, so the offer is not used.
    assert_eq!(rt; left, ((3, 10000, 4), [(2, 9999, 2), (3, 9998, 1)]));
    Ok(())
}
