use crate::checks::check_equal;
use guest_asm::*;
use guest_image::{ImageRule, write_image};
use lwc_base::ReadError;
use std::alloc::{AllocError, Global};
use std::process::Abort;
use std::test::Fail;

/// The bytes of the image of a source.
fn assembled(alloc: Global, source: &[u8]) -> Result<Vec<u8>, Fail> {
    let image = assemble(alloc, source)?;
    Ok(write_image(alloc, &image)?)
}

#[test]
fn bytes_of_store_load(rt: HostRuntime) -> Result<(), Fail> {
    let source = b".page 0 -\nLI r1, 7\nSTW r1, r0, 0\nLDW r2, r0, 0\nHALT\n.entry 0\n";
    let bytes = assembled(rt.alloc(), source)?;
    let mut expected = hex::decode(
        rt.alloc(),
        "4c57433104000000010000000000000000000000010000000000000001010000070000002300000100000000\
         210200000000000025000000000000000000000000000000",
    )?;
    expected.resize(4164, 0)?;
    check_equal(&rt, bytes.as_slice(), expected.as_slice());
    Ok(())
}

/// Guests, a place in the text of each, and the bytes of the instruction there.
#[test]
fn labels_of_guests(rt: HostRuntime) -> Result<(), Fail> {
    let rows = [
        // zero_page
        (
            b".entry 0\nLI r1, 0\nLI r2, 1\nSYS 6\nLDW r3, r4, 0\nSTW r2, r4, 0\nHALT\n".as_slice(),
            5,
            [37, 0, 0, 0, 0, 0, 0, 0],
        ),
        // create_switch
        (
            b".entry 0\n.page 0 -\nSYS 16\nLI r5, 1\nSTW r5, r4, 0\nLI r6, 2\nEQ r6, r0, r6\n\
              JZ r6, end\nMOV r1, r0\nLI r2, 9\nSYS 17\nend: HALT\n"
                .as_slice(),
            5,
            [18, 0, 6, 0, 9, 0, 0, 0],
        ),
        // shared_pages
        (
            b".entry 0\n.page 0 05\n.page 1 00000000010000000000000001000000\nLI r1, 4096\n\
              LI r2, 1\nSYS 16\nLI r8, 2\nEQ r9, r0, r8\nJZ r9, ina\nLI r2, 0\nSYS 16\nLI r8, 3\n\
              EQ r9, r0, r8\nJZ r9, inb\nLI r1, 2\nSYS 17\nLI r1, 3\nSYS 17\nHALT\nina: LI r5, 6\n\
              STB r5, r4, 0\nSYS 17\nHALT\ninb: LDB r7, r4, 0\nHALT\n"
                .as_slice(),
            10,
            [18, 0, 9, 0, 20, 0, 0, 0],
        ),
        // overlay_back
        (
            b".entry 0\n.page 0 01000000000000000200000003000000\nSYS 16\nLI r8, 2\n\
              EQ r9, r0, r8\nJZ r9, child\nMOV r1, r0\nSYS 17\nLI r1, 2\nLI r2, 0\nLI r3, 1\n\
              SYS 19\nLI r1, 2\nLI r2, 7\nSYS 17\nHALT\nchild: SYS 17\nHALT\n"
                .as_slice(),
            3,
            [18, 0, 9, 0, 14, 0, 0, 0],
        ),
        // rollback
        (
            b".entry 0\n.page 0 -\ntop: LI r2, 0\nSYS 16\nLI r8, 0\nADDI r8, r8, -1\n\
              EQ r9, r0, r8\nJZ r9, work\nMOV r10, r2\nSYS 2\nJMP top\nwork: MOV r11, r0\n\
              LDW r5, r4, 0\nADDI r5, r5, 1\nSTW r5, r4, 0\nLI r1, 1\nLI r2, 0\nLI r3, 8\nSYS 5\n\
              ADDI r10, r10, 1\nLI r8, 3\nLTU r9, r10, r8\nJZ r9, end\nMOV r1, r11\nMOV r2, r10\n\
              SYS 17\nend: HALT\n"
                .as_slice(),
            3,
            [16, 8, 8, 0, 255, 255, 255, 255],
        ),
        // many_ranges
        (
            b".entry 0\nLI r1, 0\nLI r2, 65\nSYS 6\nLI r5, 0\nLI r6, 0\nLIH r7, 1\nLI r8, 1\n\
              loop: STW r7, r6, 0\nADDI r9, r8, 1\nLI r10, 32\nSHL r9, r9, r10\nADD r9, r9, r8\n\
              STW r9, r6, 8\nADDI r6, r6, 16\nADDI r8, r8, 2\nADDI r5, r5, 1\nLI r10, 32\n\
              LTU r10, r5, r10\nJNZ r10, loop\nLI r1, 0\nLI r2, 32\nSYS 16\nHALT\n"
                .as_slice(),
            18,
            [19, 0, 10, 0, 7, 0, 0, 0],
        ),
        // cycle
        (
            b".entry 0\n.page 0 -\nSYS 16\nLI r8, 2\nEQ r9, r0, r8\nJZ r9, ina\nMOV r1, r0\n\
              SYS 17\nSYS 2\nLI r1, 2\nSYS 2\nHALT\nina: LI r2, 0\nSYS 16\nLI r8, 3\n\
              EQ r9, r0, r8\nJZ r9, inb\nMOV r1, r0\nSYS 17\nHALT\ninb: STW r8, r4, 0\nLI r1, 2\n\
              SYS 17\nHALT\n"
                .as_slice(),
            14,
            [18, 0, 9, 0, 18, 0, 0, 0],
        ),
        // counter_handler
        (
            b".entry 0\n.page 0 -\nLI r2, 8\nLI r3, 1\nSYS 4\nLDB r5, r4, 8\nJNZ r5, bad\n\
              LDW r6, r4, 0\nADDI r6, r6, 1\nSTW r6, r4, 0\nLI r1, 1\nLI r2, 0\nLI r3, 1\nSYS 5\n\
              HALT\nbad: LDW r6, r4, 1\n"
                .as_slice(),
            4,
            [19, 0, 5, 0, 13, 0, 0, 0],
        ),
    ];
    for (source, place, instruction) in rows {
        let bytes = assembled(rt.alloc(), source)?;
        let at = 28 + 8 * place;
        let seen = bytes.as_slice().get(at..at + 8);
        check_equal(&rt, (place, seen), (place, Some(instruction.as_slice())));
    }
    Ok(())
}

/// Stops unless each source is refused by its rule at its place.
fn check_refusals(rt: &impl Abort, alloc: Global, rows: &[(&[u8], SourceRule, u64)]) {
    for (source, rule, at) in rows {
        let (rule, at) = (*rule, *at);
        let refused = Some(ReadError::Refused { rule, at });
        check_equal(rt, assemble(alloc, source).err(), refused);
    }
}

#[test]
fn refusals(rt: HostRuntime) {
    let lines: [(&[u8], SourceRule, u64); 8] = [
        (b"HALT 1", SourceRule::BadLine, 0),
        (b"HALT\n halt\n", SourceRule::BadLine, 5),
        (b"HALT\r\r\n", SourceRule::BadLine, 0),
        (b"HALT ; \r\n.uid 1\n.uid x", SourceRule::BadLine, 16),
        (b"HALT\nLI r16, 1\n", SourceRule::BadOperand, 5),
        (b"LI r1, 007", SourceRule::BadOperand, 0),
        (b"LI r1, -0", SourceRule::BadOperand, 0),
        (b"MOV r1, a", SourceRule::BadOperand, 0),
    ];
    check_refusals(&rt, rt.alloc(), &lines);
    let bad_count = SourceRule::Image(ImageRule::BadCount);
    let bad_target = SourceRule::Image(ImageRule::BadTarget);
    let labels: [(&[u8], SourceRule, u64); 4] = [
        (b"a:\nb:\na: HALT\n.entry c", SourceRule::BadLabel, 6),
        (b"a: HALT\nJMP r1\n.entry b", SourceRule::BadLabel, 8),
        (b"HALT\n", bad_count, 20),
        (b"JMP end\n.entry 0\nend:", bad_target, 28),
    ];
    check_refusals(&rt, rt.alloc(), &labels);
}

#[test]
fn refusals_of_forms(rt: HostRuntime) {
    let rows: [(&[u8], SourceRule, u64); 7] = [
        (b".form 2\n.form 2\nHALT\n.entry 0", SourceRule::BadLine, 8),
        (b".form 1\nHALT\n.form 2", SourceRule::BadLine, 13),
        (b".form\nHALT\n.entry 0", SourceRule::BadLine, 0),
        (b".form 2 2\nHALT\n.entry 0", SourceRule::BadLine, 0),
        (b".form 0\nHALT\n.entry 0", SourceRule::BadOperand, 0),
        (b".form 3\nHALT\n.entry 0", SourceRule::BadOperand, 0),
        (
            b"one: HALT\n.form one\n.entry 0",
            SourceRule::BadOperand,
            10,
        ),
    ];
    check_refusals(&rt, rt.alloc(), &rows);
}

/// A guest that stores to the last word of an address space of form 2, behind these lines.
fn last_word(alloc: Global, lines: &[u8]) -> Result<Vec<u8>, AllocError> {
    let mut source = Vec::from_slice(alloc, lines)?;
    source.extend_from_slice(
        b"LI r1, 67108856\nLI r2, 7\nSTW r2, r1, 0\nLDW r3, r1, 0\nHALT\n.entry 0\n",
    )?;
    Ok(source)
}

#[test]
fn forms_of_images(rt: HostRuntime) -> Result<(), Fail> {
    let rows = [
        (b".form 2\n.page 16383 -\n".as_slice(), None),
        (b".page 16383 -\n.form 0x2\n", None),
        (b".page 16383 -\n", Some(68)),
        (b".form 2\n.page 16384 -\n", Some(68)),
        (b".form 1\n.page 1024 -\n", Some(68)),
        (b".form 1\n.page 1023 -\n", None),
    ];
    for (lines, refused_at) in rows {
        let refused = refused_at.map(|at| ReadError::Refused {
            rule: SourceRule::Image(ImageRule::BadPage),
            at,
        });
        let source = last_word(rt.alloc(), lines)?;
        check_equal(&rt, assemble(rt.alloc(), &source).err(), refused);
    }
    Ok(())
}

#[test]
fn sources_and_images_that_are_too_long(rt: HostRuntime) -> Result<(), Fail> {
    let line = b".page 0 -\n".as_slice();
    let mut pages = Vec::new(rt.alloc());
    for _ in 0..2100 {
        pages.extend_from_slice(line)?;
    }
    let blanks = vec![in rt.alloc(); b' '; 167_772_161]?;
    let rows = [
        (
            pages.as_slice(),
            SourceRule::Image(ImageRule::TooLong),
            8_388_608,
        ),
        (blanks.as_slice(), SourceRule::TooLong, 167_772_160),
    ];
    for (source, rule, at) in rows {
        let refused = ReadError::Refused { rule, at };
        check_equal(&rt, assemble(rt.alloc(), source).err(), Some(refused));
        check_equal(&rt, rule.name(), "TooLong");
    }
    Ok(())
}
