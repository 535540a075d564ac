// The sample cards, and changes to them.
use directory::seal_directory;
use layout::{Image, Refusal};
use std::ops::Range;
use std::test::Fail;

// The data of the sample's service: one object, tag 5F20, format byte 01, data AB.
pub(crate) const DATA: [u8; 12] = [
    0xE0, 0x06, 0x5F, 0x20, 0x03, 0x01, 0x41, 0x42, 0xC0, 0x02, 0x51, 0x80,
];

// Bytes to change, each with its offset.
pub(crate) type Edits = &'static [(usize, u8)];

// An image of zeros, but for the identifier 4012 in each pair of bytes of one part.
fn with_4012(part: Range<usize>) -> Image {
    let mut image = [0u8; 4096];
    if let Some(identifiers) = image.get_mut(part) {
        for identifier in identifiers.chunks_exact_mut(2) {
            identifier.copy_from_slice(&[0x12, 0x40]);
        }
    }
    image
}

// A card of profile A with one service: block 1 and 2 the MAD, block 3 its trailer, block 4 the NSCP directory, block 8 the services directory, block 12 the service, which holds no data.
pub(crate) fn bare_sample() -> Image {
    broken(
        with_4012(16..48),
        &[
            (16, 0x8F),
            (17, 0x00),
            (18, 0x11),
            (57, 0xC1),
            (64, 0xCB),
            (66, 0xCF),
            (67, 0x08),
            (128, 0x09),
            (132, 0x12),
            (133, 0x34),
            (134, 0x0C),
            (135, 0x01),
        ],
    )
}

// The same card with the service's data.
pub(crate) fn sample() -> Image {
    let mut image = bare_sample();
    image[192..204].copy_from_slice(&DATA);
    image
}

// A card of profile D: MAD2 in blocks 64 to 66, NSCP in sector 17, services in sector 18. Some of its bytes are changed, and then its directories are sealed.
pub(crate) fn sample_d(edits: Edits) -> Image {
    let card = broken(
        with_4012(1026..1072),
        &[(1026, 0x11), (1081, 0xC2), (1090, 0xCF), (1091, 72)],
    );
    sealed(broken(card, edits), [1024..1072, 1088..1136, 1152..1200])
}

// A card of profile A with some bytes changed and its directories sealed again.
pub(crate) fn altered(card: Image, edits: Edits) -> Image {
    sealed(broken(card, edits), [16..48, 64..112, 128..176])
}

// A card with some bytes changed and no seal renewed.
pub(crate) fn broken(mut image: Image, edits: Edits) -> Image {
    for (at, value) in edits {
        if let Some(byte) = image.get_mut(*at) {
            *byte = *value;
        }
    }
    image
}

// A card with the directories at these bytes sealed.
fn sealed(mut image: Image, directories: [Range<usize>; 3]) -> Image {
    for place in directories {
        if let Some(directory) = image.get_mut(place) {
            seal_directory(directory);
        }
    }
    image
}

// A refusal's number and place.
pub(crate) fn refused<T: Drop>(answer: Result<T, Refusal>) -> Option<(u8, usize)> {
    answer
        .err()
        .map(|refusal| (refusal.number(), refusal.place))
}

// Fails with these words unless two values are the same. The tests of `service` have helpers like this, `refused` and `broken`: two crates' tests share no module.
pub(crate) fn check_eq<T: PartialEq + Drop>(
    found: T,
    expected: T,
    words: &str,
) -> Result<(), Fail> {
    if found == expected {
        Ok(())
    } else {
        Err(Fail::new(words))
    }
}
