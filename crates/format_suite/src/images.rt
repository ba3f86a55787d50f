use crate::checks::check_equal;
use guest_image::*;
use std::alloc::{AllocError, Global};
use std::process::Abort;
use std::test::Fail;

/// The image of a guest of four instructions and one page, up to the bytes of the page.
const STORE_LOAD: [u8; 64] = [
    0x4c, 0x57, 0x43, 0x31, 4, 0, 0, 0, 1, 0, 0, 0, 0, 0, 0, 0, 0, 0, 0, 0, 1, 0, 0, 0, 0, 0, 0, 0,
    0x01, 0x01, 0, 0, 7, 0, 0, 0, 0x23, 0, 0, 1, 0, 0, 0, 0, 0x21, 0x02, 0, 0, 0, 0, 0, 0, 0x25, 0,
    0, 0, 0, 0, 0, 0, 0, 0, 0, 0,
];

/// The bytes of an image that stores 7, loads it again and halts.
fn store_load(alloc: Global) -> Result<Vec<u8>, AllocError> {
    let mut bytes = Vec::from_slice(alloc, &STORE_LOAD)?;
    bytes.extend_from_slice(&[0; 4096])?;
    bytes.extend_from_slice(&[0; 4])?;
    Ok(bytes)
}

/// The magic of a form, and these numbers.
fn file_of(alloc: Global, form: Form, numbers: &[u32]) -> Result<Vec<u8>, AllocError> {
    let mut bytes = Vec::from_slice(alloc, form.magic())?;
    for number in numbers {
        bytes.extend_from_slice(&number.to_le_bytes())?;
    }
    Ok(bytes)
}

/// An image of one instruction and one page, which has this number.
fn one_page(alloc: Global, form: Form, number: u32) -> Result<Vec<u8>, AllocError> {
    let mut bytes = file_of(alloc, form, &[1, 1, 0, 0, 1, 0, 0x25, 0, number])?;
    bytes.extend_from_slice(&[7; 4096])?;
    bytes.extend_from_slice(&[0; 4])?;
    Ok(bytes)
}

/// An image of one instruction and some pages, with every second number.
fn spaced_pages(alloc: Global, count: u32) -> Result<Vec<u8>, AllocError> {
    let mut bytes = file_of(alloc, Form::One, &[1, count, 0, 0, 1, 0, 0x25, 0])?;
    for page in 0..count {
        bytes.extend_from_slice(&page.wrapping_mul(2).to_le_bytes())?;
        bytes.extend_from_slice(&[0; 4096])?;
    }
    bytes.extend_from_slice(&[0; 4])?;
    Ok(bytes)
}

/// The rule that an image breaks first, and where, if it is refused.
fn refusal(alloc: Global, bytes: &[u8]) -> Option<(ImageRule, u64)> {
    match read_image(alloc, bytes) {
        Err(ImageFault::Refused { rule, at }) => Some((rule, at)),
        _ => None,
    }
}

/// How many instructions, pages and entries an image has, and the first entry.
fn shown(image: &Image) -> ([usize; 3], Option<u32>) {
    let entries = image.entries.as_slice();
    let counts = [image.text.len(), image.pages.len(), entries.len()];
    (counts, entries.first().copied())
}

/// The form of an image that is read, how many instructions, pages and entries it has, the first entry, and whether it
/// is written as it was read.
fn read_again(alloc: Global, bytes: &[u8]) -> Result<(Form, [usize; 3], Option<u32>, bool), Fail> {
    let image = read_image(alloc, bytes)?;
    let (counts, first) = shown(&image);
    let written = write_image(alloc, &image)?;
    Ok((image.form, counts, first, written.as_slice() == bytes))
}

#[test]
fn an_image_is_read_and_written_again(rt: HostRuntime) -> Result<(), Fail> {
    let bytes = store_load(rt.alloc())?;
    let len = bytes.len();
    let read = read_again(rt.alloc(), &bytes)?;
    check_equal(
        &rt,
        (len, read),
        (4164, (Form::One, [4, 1, 1], Some(0), true)),
    );
    Ok(())
}

#[test]
fn a_file_that_ends_too_early(rt: HostRuntime) -> Result<(), Fail> {
    let bytes = store_load(rt.alloc())?;
    for len in [0, 3, 20, 59, 61, 4163] {
        let front = &bytes[..bytes.len().min(len)];
        check_equal(
            &rt,
            refusal(rt.alloc(), front),
            Some((ImageRule::Truncated, len as u64)),
        );
    }
    Ok(())
}

#[test]
fn a_byte_of_the_magic(rt: HostRuntime) {
    let rows = [
        (b"LX".as_slice(), ImageRule::BadMagic, 1),
        (b"LW".as_slice(), ImageRule::Truncated, 2),
        (b"MWC1".as_slice(), ImageRule::BadMagic, 0),
        (b"LWC1".as_slice(), ImageRule::Truncated, 4),
        (b"LWC2".as_slice(), ImageRule::Truncated, 4),
        (b"LWC3".as_slice(), ImageRule::BadMagic, 3),
        (b"MWC2".as_slice(), ImageRule::BadMagic, 0),
    ];
    for (bytes, rule, at) in rows {
        check_equal(&rt, refusal(rt.alloc(), bytes), Some((rule, at)));
    }
}

/// Stops unless each file of form 1 is refused by its rule at its place. The numbers of a file are counts, uid, and
/// 0x25, 0 for the one instruction; then files, slots and entries.
fn check_rules(
    rt: &impl Abort,
    alloc: Global,
    rows: &[(&[u32], ImageRule, u64)],
) -> Result<(), AllocError> {
    for (numbers, rule, at) in rows {
        let bytes = file_of(alloc, Form::One, numbers)?;
        check_equal(rt, refusal(alloc, &bytes), Some((*rule, *at)));
    }
    Ok(())
}

#[test]
fn each_rule_at_its_count(rt: HostRuntime) -> Result<(), Fail> {
    check_rules(
        &rt,
        rt.alloc(),
        &[
            (&[0], ImageRule::BadCount, 4),
            (&[65537], ImageRule::BadCount, 4),
            (&[1, 1025], ImageRule::BadCount, 8),
            (&[1, 0, 65], ImageRule::BadCount, 12),
            (&[1, 0, 0, 63], ImageRule::BadCount, 16),
            (&[1, 0, 0, 0, 0], ImageRule::BadCount, 20),
            (&[1, 0, 0, 0, 17], ImageRule::BadCount, 20),
        ],
    )?;
    Ok(())
}

#[test]
fn each_rule_at_its_field(rt: HostRuntime) -> Result<(), Fail> {
    check_rules(
        &rt,
        rt.alloc(),
        &[
            (&[1, 0, 0, 0, 1, 0, 0, 0], ImageRule::BadInstruction, 28),
            (&[1, 0, 0, 0, 1, 0, 0x11, 1], ImageRule::BadTarget, 28),
            (&[1, 1, 0, 0, 1, 0, 0x25, 0, 1024], ImageRule::BadPage, 36),
            (&[1, 0, 0, 0, 1, 0, 0x25, 0, 1], ImageRule::BadEntry, 36),
            (&[1, 0, 0, 0, 1, 0, 0x25, 0, 0, 0], ImageRule::Trailing, 40),
        ],
    )?;
    Ok(())
}

#[test]
fn each_rule_at_its_file_or_slot(rt: HostRuntime) -> Result<(), Fail> {
    let files: [(&[u32], ImageRule, u64); 3] = [
        (&[1, 0, 1, 0, 1, 0, 0x25, 0, 9, 2], ImageRule::BadFile, 40),
        (
            &[1, 0, 1, 0, 1, 0, 0x25, 0, 9, 1, 1_048_577],
            ImageRule::BadFile,
            44,
        ),
        (
            &[1, 0, 2, 0, 1, 0, 0x25, 0, 9, 1, 4, 7, 9, 0, 1_048_573],
            ImageRule::BadFile,
            60,
        ),
    ];
    check_rules(&rt, rt.alloc(), &files)?;
    let slots: [(&[u32], ImageRule, u64); 4] = [
        (
            &[1, 0, 1, 1, 1, 0, 0x25, 0, 9, 1, 0, 1],
            ImageRule::BadSlot,
            48,
        ),
        (
            &[1, 0, 1, 1, 1, 0, 0x25, 0, 9, 1, 0, 64],
            ImageRule::BadSlot,
            48,
        ),
        (
            &[1, 0, 1, 1, 1, 0, 0x25, 0, 9, 1, 0, 2, 1],
            ImageRule::BadSlot,
            52,
        ),
        (
            &[1, 0, 1, 2, 1, 0, 0x25, 0, 9, 1, 0, 3, 0, 3],
            ImageRule::BadSlot,
            56,
        ),
    ];
    check_rules(&rt, rt.alloc(), &slots)?;
    Ok(())
}

/// How an image of one page, which has this number, is refused.
fn page_refusal(
    alloc: Global,
    form: Form,
    number: u32,
) -> Result<Option<(ImageRule, u64)>, AllocError> {
    let bytes = one_page(alloc, form, number)?;
    Ok(refusal(alloc, &bytes))
}

/// How an image with this number of pages is refused.
fn count_refusal(
    alloc: Global,
    form: Form,
    count: u32,
) -> Result<Option<(ImageRule, u64)>, AllocError> {
    let bytes = file_of(alloc, form, &[1, count])?;
    Ok(refusal(alloc, &bytes))
}

#[test]
fn each_form_has_its_pages(rt: HostRuntime) -> Result<(), Fail> {
    let rows = [
        (Form::One, 1023, None),
        (Form::One, 1024, Some((ImageRule::BadPage, 36))),
        (Form::Two, 1024, None),
        (Form::Two, 16383, None),
        (Form::Two, 16384, Some((ImageRule::BadPage, 36))),
        (Form::Two, 65536, Some((ImageRule::BadPage, 36))),
    ];
    for (form, number, refused) in rows {
        check_equal(&rt, page_refusal(rt.alloc(), form, number)?, refused);
    }
    let one = count_refusal(rt.alloc(), Form::One, 1025)?;
    let two = count_refusal(rt.alloc(), Form::Two, 16385)?;
    let refused = Some((ImageRule::BadCount, 8));
    check_equal(&rt, [one, two], [refused, refused]);
    Ok(())
}

#[test]
fn an_image_of_form_2_is_read_and_written_again(rt: HostRuntime) -> Result<(), Fail> {
    let bytes = one_page(rt.alloc(), Form::Two, 16383)?;
    let read = read_again(rt.alloc(), &bytes)?;
    check_equal(&rt, read, (Form::Two, [1, 1, 1], Some(0), true));
    Ok(())
}

/// The bytes of an image that is read and lifted.
#[tactic(auto, using(guest_image::proofs::Lifted::lifting))]
fn lifted(alloc: Global, bytes: &[u8]) -> Result<Vec<u8>, Fail> {
    let image = lift(read_image(alloc, bytes)?);
    Ok(write_image(alloc, &image)?)
}

#[test]
fn an_image_is_lifted(rt: HostRuntime) -> Result<(), Fail> {
    let once = lifted(rt.alloc(), &store_load(rt.alloc())?)?;
    let twice = lifted(rt.alloc(), &once)?;
    let mut expected = store_load(rt.alloc())?;
    if let Some(digit) = expected.get_mut(3) {
        *digit = b'2';
    }
    let want = expected.as_slice();
    assert!(rt; once.as_slice() == want && twice.as_slice() == want);
    Ok(())
}

#[test]
fn a_byte_too_many(rt: HostRuntime) -> Result<(), Fail> {
    let mut bytes = store_load(rt.alloc())?;
    bytes.push(0)?;
    check_equal(
        &rt,
        refusal(rt.alloc(), &bytes),
        Some((ImageRule::Trailing, 4164)),
    );
    Ok(())
}

/// How many pages an image of form 1 has, every second one of which is present, or how it is refused.
fn pages_or_refusal(alloc: Global, count: u32) -> Result<Result<usize, (ImageRule, u64)>, Fail> {
    let bytes = spaced_pages(alloc, count)?;
    match read_image(alloc, &bytes) {
        Ok(image) => Ok(Ok(image.pages.len())),
        Err(ImageFault::Refused { rule, at }) => Ok(Err((rule, at))),
        Err(fault) => Err(fault)?,
    }
}

#[test]
fn a_range_too_many(rt: HostRuntime) -> Result<(), Fail> {
    let most = pages_or_refusal(rt.alloc(), 64)?;
    let too_many = pages_or_refusal(rt.alloc(), 65)?;
    let refused = Err((ImageRule::BadPage, 36 + 64 * 4100));
    check_equal(&rt, [most, too_many], [Ok(64), refused]);
    Ok(())
}

/// Makes the first three bytes those of every magic.
fn write_letters(bytes: &mut [u8]) {
    for (place, letter) in bytes.iter_mut().zip(b"LWC") {
        *place = *letter;
    }
}

/// How the front of a file is refused, when its fourth byte is this one.
fn front_refusal(
    alloc: Global,
    bytes: &mut [u8],
    digit: u8,
    length: usize,
) -> Option<(ImageRule, u64)> {
    if let Some(place) = bytes.get_mut(3) {
        *place = digit;
    }
    refusal(alloc, &bytes[..bytes.len().min(length)])
}

/// The fourth byte of a file, its length, and how it is refused.
#[test]
fn a_file_too_long(rt: HostRuntime) -> Result<(), Fail> {
    let rows = [
        (b'1', 8_388_608, ImageRule::BadCount, 4),
        (b'1', 8_388_609, ImageRule::TooLong, 8_388_608),
        (b'1', 75_497_473, ImageRule::TooLong, 75_497_472),
        (b'2', 75_497_472, ImageRule::BadCount, 4),
        (b'2', 75_497_473, ImageRule::TooLong, 75_497_472),
        (b'3', 8_388_609, ImageRule::BadMagic, 3),
    ];
    let mut bytes = Vec::from_elem(rt.alloc(), 0, 75_497_473)?;
    write_letters(&mut bytes);
    for (digit, length, rule, at) in rows {
        let refused = front_refusal(rt.alloc(), &mut bytes, digit, length);
        check_equal(&rt, refused, Some((rule, at)));
    }
    check_equal(&rt, ImageRule::TooLong.name(), "TooLong");
    Ok(())
}
