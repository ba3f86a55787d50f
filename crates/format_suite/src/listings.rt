use crate::checks::check_equal;
use guest_asm::assemble;
use guest_dis::*;
use std::alloc::Global;
use std::test::Fail;

/// The listing of a source's image.
fn listed(alloc: Global, source: &[u8]) -> Result<Vec<u8>, Fail> {
    let image = assemble(alloc, source)?;
    Ok(disassemble(alloc, &image)?)
}

#[test]
fn listings(rt: HostRuntime) -> Result<(), Fail> {
    let rows = [
        (
            b".page 0 -\nLI r1, 7\nSTW r1, r0, 0\nLDW r2, r0, 0\nHALT\n.entry 0".as_slice(),
            b".uid 0\n.entry 0\nLI r1, 7\nSTW r1, r0, 0\nLDW r2, r0, 0\nHALT\n.page 0 -\n".as_slice(),
        ),
        (
            b".file 0x9 1 0A\n.slot 2,0\n.uid 7\n a:JZ r15 a\nADDI r0, r1, -1\nJMP a\n\
              .page 3 Ab0100\n.entry a",
            b".uid 7\n.entry 0\nJZ r15, 0\nADDI r0, r1, 4294967295\nJMP 0\n\
              .page 3 ab01\n.file 9 1 0a\n.slot 2 0\n",
        ),
        (
            b"HALT\n.page 16383 05\n.entry 0\n.form 2",
            b".form 2\n.uid 0\n.entry 0\nHALT\n.page 16383 05\n",
        ),
        (b".form 1\nHALT\n.entry 0", b".uid 0\n.entry 0\nHALT\n"),
    ];
    for (source, expected) in rows {
        let listing = listed(rt.alloc(), source)?;
        check_equal(&rt, listing.as_slice(), expected);
    }
    Ok(())
}
