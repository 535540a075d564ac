// Service data at its edges: each refusal with its place, and what is accepted beside it.
use crate::frames::read_frame;
use crate::objects::{Object, count_objects, next_object};
use crate::writing::write_frame;
use layout::{Crc16, Refusal, checksum};
use std::test::Fail;

// One object, tag 5F20, format byte 01, data AB.
const SAMPLE: [u8; 16] = [
    0xE0, 0x06, 0x5F, 0x20, 0x03, 0x01, 0x41, 0x42, 0xC0, 0x02, 0x51, 0x80, 0, 0, 0, 0,
];

// A refusal's number and place. The tests of the listings have this and the next two helpers as well: two crates' tests share no module.
fn refused<T: Drop>(answer: Result<T, Refusal>) -> Option<(u8, usize)> {
    answer
        .err()
        .map(|refusal| (refusal.number(), refusal.place))
}

// Fails unless two values are the same.
fn check_eq<T: PartialEq + Drop>(found: T, expected: T) -> Result<(), Fail> {
    if found == expected {
        Ok(())
    } else {
        Err(Fail::new("two values differ"))
    }
}

fn check_run(run: &[u8], expected: Option<(u8, usize)>) -> Result<(), Fail> {
    check_eq(refused(read_frame(run)), expected)
}

// The sample with some bytes changed.
fn changed(edits: &[(usize, u8)]) -> [u8; 16] {
    let mut run = SAMPLE;
    for (at, value) in edits {
        if let Some(byte) = run.get_mut(*at) {
            *byte = *value;
        }
    }
    run
}

// A run with four content bytes and the right checksum.
fn run_of(content: [u8; 4]) -> [u8; 16] {
    let [a, b, c, d] = content;
    let mut run = [0xE0, 0x04, a, b, c, d, 0xC0, 0x02, 0, 0, 0, 0, 0, 0, 0, 0];
    let sum = checksum::<Crc16>(&run[0..8]);
    run[8..10].copy_from_slice(&sum.to_be_bytes());
    run
}

// Four content bytes, and the number and place of their refusal, if they are refused.
const CONTENTS: [([u8; 4], Option<(u8, usize)>); 11] = [
    ([0xC1, 0x02, 0x05, 0x00], None),
    ([0xC1, 0x81, 0x01, 0x05], None),
    ([0x1F, 0x00, 0x01, 0x05], None),
    ([0xDF, 0x7F, 0x01, 0x05], None),
    ([0xDF, 0x80, 0x01, 0x05], Some((15, 0))),
    ([0x00, 0x02, 0x05, 0x05], Some((15, 0))),
    ([0xC1, 0x03, 0x05, 0x05], Some((15, 0))),
    ([0xC1, 0x80, 0x05, 0x05], Some((15, 0))),
    ([0xC1, 0x00, 0x05, 0x05], Some((15, 0))),
    ([0xC1, 0x01, 0x05, 0x00], Some((15, 3))),
    ([0xC1, 0x01, 0x05, 0x1F], Some((15, 3))),
];

// Runs of eight bytes, and the place of their refusal by 13.
const HEADERS: [([u8; 8], usize); 5] = [
    ([0xE1, 0x00, 0xC0, 0x02, 0x36, 0x3C, 0, 0], 0),
    ([0xE0, 0x80, 0, 0, 0, 0, 0, 0], 1),
    ([0xE0, 0x82, 0, 0, 0, 0, 0, 0], 1),
    ([0xE0, 0x7F, 0xC0, 0x02, 0, 0, 0, 0], 129),
    ([0xE0, 0x00, 0xC0, 0x03, 0x36, 0x3C, 0, 0], 2),
];

#[test]
fn frames(rt: HostRuntime) -> Result<(), Fail> {
    let frame = read_frame(&SAMPLE)?;
    assert_eq!(rt; frame.tag, 0xE0);
    assert_eq!(rt; frame.start, 2);
    assert_eq!(rt; frame.content.len(), 6);
    assert_eq!(rt; frame.objects, 1);
    assert_eq!(rt; count_objects(frame.content)?, 1);
    for (run, place) in HEADERS {
        check_run(&run, Some((13, place)))?;
    }
    check_run(&[], Some((13, 0)))?;
    check_run(&[0xE0], Some((13, 1)))?;
    check_run(&[0x65, 0x81], Some((13, 1)))?;
    check_run(&SAMPLE[0..11], Some((13, 8)))?;
    check_run(&[0xE0, 0x00, 0xC0, 0x02, 0x36, 0x3C], None)?;
    check_run(&[0xE0, 0x00, 0xC0, 0x02, 0x36], Some((13, 2)))?;
    check_run(&changed(&[(9, 0x03)]), Some((13, 8)))?;
    check_run(&changed(&[(11, 0x81)]), Some((14, 10)))?;
    check_run(&changed(&[(12, 1), (15, 1)]), Some((16, 12)))?;
    check_run(&changed(&[(15, 1)]), Some((16, 15)))?;
    Ok(())
}

#[test]
fn contents(rt: HostRuntime) -> Result<(), Fail> {
    for (content, expected) in CONTENTS {
        check_run(&run_of(content), expected)?;
    }
    assert_eq!(rt; refused(next_object(&[0xC1, 0x01, 0x05], 4)), Some((15, 4)));
    assert_eq!(rt; refused(next_object(&[0xC1, 0x01, 0x05], 1)), Some((15, 1)));
    assert!(rt; next_object(&[0xC1, 0x01, 0x05], 3)?.is_none());
    let object = next_object(&[0x5F, 0x20, 0x03, 0x01, 0x41, 0x42], 0)?;
    let Some(
        Object::TwoByte {
            tag,
            format,
            data,
            next,
        },
    ) = object
    else {
        return Err(Fail::new("an object with a tag of two bytes"));
    };
    assert_eq!(rt; tag, 0x5F20);
    assert_eq!(rt; format, 1);
    assert_eq!(rt; data, b"AB".as_slice());
    assert_eq!(rt; next, 6);
    Ok(())
}

// A content of one object, that begins with these bytes.
fn content_of(tag: u8, length: u8, more: u8) -> [u8; 256] {
    let mut content = [1u8; 256];
    content[..3].copy_from_slice(&[tag, length, more]);
    content
}

// Writes, reads back, and counts the blocks.
fn check_written(content: &[u8], start: usize, blocks: u8) -> Result<(), Fail> {
    let mut run = [0xEE; 272];
    let written = write_frame(0x65, content, &mut run)?;
    check_eq(written, blocks)?;
    let (frame, after) = run.split_at(16 * usize::from(written));
    let frame = read_frame(frame)?;
    check_eq(frame.tag, 0x65)?;
    check_eq(frame.start, start)?;
    check_eq(frame.content, content)?;
    check_eq(after.iter().all(|byte| *byte == 0xEE), true)
}

#[test]
fn writes(rt: HostRuntime) -> Result<(), Fail> {
    check_written(&[], 2, 1)?;
    check_written(&content_of(0xC1, 8, 1)[0..10], 2, 1)?;
    check_written(&content_of(0xC1, 9, 1)[0..11], 2, 2)?;
    check_written(&content_of(0xC1, 125, 1)[0..127], 2, 9)?;
    check_written(&content_of(0xC1, 126, 1)[0..128], 3, 9)?;
    check_written(&content_of(0xC1, 0x81, 252)[0..255], 3, 17)?;
    let mut run = [0xEE; 272];
    assert_eq!(rt; refused(write_frame(0xE1, &[], &mut run)), Some((18, 0)));
    assert_eq!(rt;
        refused(write_frame(0xE0, &[0xC1], &mut run)),
        Some((19, 0))
    );
    assert_eq!(rt;
        refused(write_frame(0xE0, &[0xC1, 1, 5, 0], &mut run)),
        Some((19, 3))
    );
    assert_eq!(rt;
        refused(write_frame(0xE0, &content_of(0xC1, 0x81, 253), &mut run)),
        Some((19, 255))
    );
    assert_eq!(rt; run[0], 0xEE);
    Ok(())
}
