//! The handler of generated servers, the first of them, and the summary of the replies that it is to give.

use crate::checks::check_equal;
use guest_asm::assemble;
use lwc_base::ThreadStatus;
use lwc_gen::{HANDLER, Totals, generate};
use std::test::Fail;

/// Reads the word x of its request into page 1, adds it to the first word of page p = 2 + (x mod 298),
/// adds 1 to the first word of page 0, and replies with both words.
const GENERATED: &str = ".entry 0
LI r2, 4096
LI r3, 8
SYS 4
LDW r4, r2, 0
LI r5, 298
REMU r5, r4, r5
ADDI r5, r5, 2
LI r6, 4096
MUL r5, r5, r6
LDW r7, r5, 0
ADD r7, r7, r4
STW r7, r5, 0
LDW r8, r9, 0
ADDI r8, r8, 1
STW r8, r9, 0
LI r1, 1
MOV r2, r5
SYS 5
LI r2, 0
SYS 5
HALT
";

/// Adds a reply to totals of fewer than 1024.
fn add(totals: &mut Totals, status: Option<ThreadStatus>, reply: &[u8]) {
    if totals.requests < 1024 && totals.done <= totals.requests {
        totals.add(status, reply);
    }
}

/// The totals of the ten replies of the first server.
fn first_totals() -> Totals {
    let mut totals = Totals::none();
    for r in 0..10u64 {
        let word = 1000 + r;
        let place = 2 + word % 298;
        let [a, b, c, d, e, f, g, h] = (word + place).to_le_bytes();
        let reply = [a, b, c, d, e, f, g, h, 1, 0, 0, 0, 0, 0, 0, 0];
        add(&mut totals, Some(ThreadStatus::Done { code: 0 }), &reply);
    }
    totals
}

#[test]
fn the_generated_handler_is_that_of_its_source(rt: HostRuntime) -> Result<(), Fail> {
    let image = assemble(rt.alloc(), GENERATED.as_bytes())?;
    check_equal(&rt, image.text.into_vec().as_slice(), HANDLER.as_slice());
    Ok(())
}

#[test]
fn the_first_server(rt: HostRuntime) -> Result<(), Fail> {
    let (image, requests) = generate(rt.alloc(), 1)?;
    let counts = [image.pages.len(), image.text.len(), requests.len()];
    check_equal(&rt, counts, [300, 21, 10]);
    for (r, request) in requests.as_slice().iter().enumerate() {
        let word = (r as u64).wrapping_add(1000);
        check_equal(&rt, request.as_slice(), word.to_le_bytes().as_slice());
    }
    Ok(())
}

#[test]
fn the_first_summary(rt: HostRuntime) -> Result<(), Fail> {
    let mut totals = first_totals();
    add(&mut totals, None, &[7; 15]);
    let line = totals.line(rt.alloc(), 1)?;
    check_equal(
        &rt,
        line.as_slice(),
        b"gen 1 requests 11 done 10 sum 11170 count 10\n".as_slice(),
    );
    Ok(())
}
