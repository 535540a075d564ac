// The listing that reads services: the sample card, each way in which an input, a card or a service is refused, and a card that leaves.
use crate::cards::{DATA, Edits, altered, broken, check_eq, refused, sample};
use crate::directories::{
    Tried, check_applications, check_leaving, check_nscp, check_services, going,
};
use card::{Card, ImageCard, Laid, TearCard};
use directory::{Directory, check_card};
use full_listing::list;
use layout::{Image, Profile, Refusal};
use station::{Reading, Station};
use std::alloc::Global;
use std::test::Fail;

fn check_record(
    heap: Global,
    letter: &str,
    bytes: &[u8],
    accepted: bool,
    expected: &str,
) -> Result<(), Fail> {
    let listing = list(heap, letter, bytes)?;
    check_eq(listing.accepted, accepted, expected)?;
    check_eq(listing.text.as_str(), expected, expected)
}

// Letters that are judged after the image's size, and what is said of the sample under each.
const LETTERS: [(&str, bool, &str); 7] = [
    ("A", true, "profile A\n1234 0C 01 E0 1\nfree 38\n"),
    ("E", true, "profile E\n1234 0C 01 E0 1\nfree 98\n"),
    ("D", false, "profile D\nrefused 3\n"),
    ("F", false, "refused 1\n"),
    ("a", false, "refused 1\n"),
    ("AA", false, "refused 1\n"),
    ("", false, "refused 1\n"),
];

#[test]
fn records(rt: HostRuntime) -> Result<(), Fail> {
    let card = sample();
    for (letter, accepted, text) in LETTERS {
        check_record(rt.alloc(), letter, &card, accepted, text)?;
    }
    check_record(rt.alloc(), "F", &card[0..4095], false, "refused 28\n")?;
    check_record(rt.alloc(), "A", &[], false, "refused 28\n")?;
    let wrong = broken(card, &[(47, 0x41)]);
    check_record(rt.alloc(), "A", &wrong, false, "profile A\nrefused 4\n")?;
    Ok(())
}

// Changes to an accepted card, and the lines of its services.
const SERVICES: [(Edits, &str); 7] = [
    (
        &[
            (192, 0),
            (193, 0),
            (194, 0),
            (195, 0),
            (196, 0),
            (197, 0),
            (198, 0),
            (199, 0),
            (200, 0),
            (201, 0),
            (202, 0),
            (203, 0),
        ],
        "profile A\n1234 0C 01 refused 13\nfree 38\n",
    ),
    (
        &[(203, 0x81)],
        "profile A\n1234 0C 01 refused 14\nfree 38\n",
    ),
    (
        &[(132, 0x99), (133, 0x99)],
        "profile A\n9999 0C 01 refused 11\nfree 38\n",
    ),
    (&[(204, 1)], "profile A\n1234 0C 01 refused 16\nfree 38\n"),
    (&[(207, 1)], "profile A\n1234 0C 01 refused 16\nfree 38\n"),
    (
        &[(132, 0), (133, 0), (134, 0), (135, 0)],
        "profile A\nfree 39\n",
    ),
    (
        &[(172, 0xAB), (173, 0xCD), (174, 0x0D), (175, 3)],
        "profile A\n1234 0C 01 E0 1\nABCD 0D 03 refused 13\nfree 35\n",
    ),
];

#[test]
fn service_lines(rt: HostRuntime) -> Result<(), Fail> {
    for (edits, text) in SERVICES {
        check_record(rt.alloc(), "A", &altered(sample(), edits), true, text)?;
    }
    Ok(())
}

// The directory check alone: the listing's text does not have a refusal's place.
struct Check;

impl Tried for Check {
    fn sample() -> Image {
        sample()
    }

    fn judge(letter: &str, image: &Image) -> Result<Directory, Refusal> {
        let profile = letter.parse::<Profile>()?;
        let mut bytes = *image;
        let mut card = ImageCard::new(&mut bytes);
        check_card(&mut card, profile)
    }
}

#[test]
fn application_directory() -> Result<(), Fail> {
    check_eq(
        refused(Check::judge("F", &sample())),
        Some((1, 0)),
        "letter",
    )?;
    check_applications::<Check>()
}

#[test]
fn nscp_directory() -> Result<(), Fail> {
    check_nscp::<Check>()
}

#[test]
fn services_directory() -> Result<(), Fail> {
    check_services::<Check>()
}

#[test]
fn a_card_that_leaves() -> Result<(), Fail> {
    check_leaving::<Check>()
}

// A buffer of five blocks whose first `blocks` were read: the data, 00 after it, and then the old bytes.
fn filled(blocks: u8) -> [u8; 80] {
    let mut buffer = [0u8; 80];
    buffer[..12].copy_from_slice(&DATA);
    if let Some(old) = buffer.get_mut(16 * usize::from(blocks)..) {
        old.fill(0xEE);
    }
    buffer
}

// Reads the service from a card that goes after so many blocks of its run, lays the card again, and reads once more.
fn check_leaving_run(blocks: u8, place: usize) -> Result<(), Fail> {
    let mut image = altered(sample(), &[(135, 4)]);
    let card = TearCard::new(&mut image, going(9 + u32::from(blocks), 2));
    let mut station = Station::new(Profile::A, card, 1, 0);
    let mut buffer = [0xEE; 80];
    let read = station.read(0x1234, &mut buffer);
    check_eq(refused(read), Some((2, place)), "the card goes")?;
    check_eq(buffer, filled(blocks), "what was read")?;
    check_eq(station.lay(), Laid::No, "lay")?;
    let read = station.read(0x1234, &mut buffer);
    check_eq(refused(read), Some((2, 3)), "the card is off")?;
    check_eq(station.lay(), Laid::No, "lay")?;
    check_eq(buffer, filled(blocks), "what was read")?;
    check_eq(station.lay(), Laid::Yes, "lay")?;
    let sample = Reading {
        tag: 0xE0,
        start: 2,
        length: 6,
        objects: 1,
    };
    check_eq(station.read(0x1234, &mut buffer)?, sample, "the service")?;
    check_eq(buffer, filled(4), "all four blocks")
}

// The blocks of a run of four, with a trailer after its third.
const RUN: [usize; 4] = [12, 13, 14, 16];

#[test]
fn a_card_that_leaves_in_a_run() -> Result<(), Fail> {
    for (blocks, place) in (0..4u8).zip(RUN) {
        check_leaving_run(blocks, place)?;
    }
    Ok(())
}
