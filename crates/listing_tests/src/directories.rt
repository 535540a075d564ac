// Each way in which the directories of a card are refused, tried on both listings.
use crate::cards::{Edits, altered, broken, check_eq, refused, sample_d};
use card::{Plan, TearCard, Torn};
use directory::{Directory, check_card};
use layout::{Image, Profile, Refusal};
use std::test::Fail;

// A listing that is tried: its sample card, and how it judges a card under a profile letter.
pub(crate) trait Tried {
    fn sample() -> Image;

    fn judge(letter: &str, image: &Image) -> Result<Directory, Refusal>;
}

pub(crate) fn check_applications<T: Tried>() -> Result<(), Fail> {
    let card = T::sample();
    let cases = [
        ("A", altered(card, &[]), None, "accepted"),
        ("D", sample_d(&[]), None, "accepted in profile D"),
        ("A", broken(card, &[(57, 0xC2)]), Some((3, 3)), "trailer"),
        (
            "D",
            sample_d(&[(1081, 0xC1)]),
            Some((3, 67)),
            "trailer in profile D",
        ),
        ("A", broken(card, &[(17, 1)]), Some((4, 1)), "checksum"),
        ("A", altered(card, &[(18, 0x12)]), Some((5, 0)), "no 4011"),
        ("A", altered(card, &[(20, 0x11)]), Some((5, 0)), "two 4011"),
        (
            "D",
            sample_d(&[(1026, 0x12), (1056, 0x11)]),
            Some((5, 0)),
            "4011 past sector 31",
        ),
    ];
    for (letter, image, refusal, words) in cases {
        check_eq(refused(T::judge(letter, &image)), refusal, words)?;
    }
    Ok(())
}

// Changes to the sample card, what they make wrong in the NSCP directory, and the number and place of the refusal.
const NSCP: [(Edits, &str, (u8, usize)); 12] = [
    (&[(65, 1)], "header", (7, 0)),
    (&[(68, 0xD0), (69, 12)], "unknown tag", (7, 2)),
    (&[(68, 0xCF), (69, 12)], "repeated tag", (7, 2)),
    (&[(69, 12)], "tag 00 with a block", (7, 2)),
    (&[(68, 0xC0)], "block 0", (7, 2)),
    (&[(68, 0xC0), (69, 15)], "a trailer", (7, 2)),
    (&[(68, 0xC3), (69, 13)], "off the first block", (7, 2)),
    (&[(66, 0xC3)], "no item CF", (8, 0)),
    (&[(67, 128)], "outside", (8, 128)),
    (&[(67, 4)], "the NSCP sector", (8, 4)),
    (&[(20, 0x13)], "lacks 4012", (8, 8)),
    (&[(68, 0xC0), (69, 9)], "another item there", (8, 8)),
];

pub(crate) fn check_nscp<T: Tried>() -> Result<(), Fail> {
    let card = T::sample();
    let unsealed = broken(card, &[(111, 1)]);
    check_eq(refused(T::judge("A", &unsealed)), Some((6, 4)), "checksum")?;
    for (edits, wrong, refusal) in NSCP {
        let image = altered(card, edits);
        check_eq(refused(T::judge("A", &image)), Some(refusal), wrong)?;
    }
    Ok(())
}

// The same in the services directory.
const SLOTS: [(Edits, &str, (u8, usize)); 9] = [
    (&[(129, 1)], "first header byte", (10, 0)),
    (&[(131, 1)], "last header byte", (10, 0)),
    (&[(132, 0), (133, 0)], "number 0000", (10, 1)),
    (&[(135, 0)], "length 0", (10, 1)),
    (&[(134, 6)], "no service block", (10, 1)),
    (&[(134, 15)], "starts at a trailer", (10, 1)),
    (
        &[(136, 0x12), (137, 0x34), (138, 16), (139, 1)],
        "a repeated number",
        (10, 2),
    ),
    (
        &[(136, 0x12), (137, 0x35), (138, 12), (139, 2)],
        "a shared block",
        (10, 2),
    ),
    (
        &[(172, 0x12), (173, 0x36), (174, 12), (175, 1)],
        "the last slot",
        (10, 11),
    ),
];

pub(crate) fn check_services<T: Tried>() -> Result<(), Fail> {
    let card = T::sample();
    let unsealed = broken(card, &[(175, 1)]);
    check_eq(refused(T::judge("A", &unsealed)), Some((9, 8)), "checksum")?;
    for (edits, wrong, refusal) in SLOTS {
        let image = altered(card, edits);
        check_eq(refused(T::judge("A", &image)), Some(refusal), wrong)?;
    }
    let past = sample_d(&[(1156, 1), (1158, 253), (1159, 3)]);
    check_eq(
        refused(T::judge("D", &past)),
        Some((10, 1)),
        "past rank 215",
    )
}

// A plan that goes after so many reads, and says no to so many lays.
pub(crate) fn going(answers: u32, refusals: u32) -> Plan {
    Plan {
        answers,
        torn: Torn::Old,
        refusals,
    }
}

// The directory check of an image that goes after so many reads.
fn leaving(mut image: Image, answers: u32) -> Option<(u8, usize)> {
    let mut card = TearCard::new(&mut image, going(answers, 0));
    refused(check_card(&mut card, Profile::A))
}

// The blocks that the check of the sample reads, in their order.
const CHECKED: [usize; 9] = [3, 1, 2, 4, 5, 6, 8, 9, 10];

pub(crate) fn check_leaving<T: Tried>() -> Result<(), Fail> {
    let card = T::sample();
    for (answers, block) in (0..9u32).zip(CHECKED) {
        check_eq(leaving(card, answers), Some((2, block)), "a card that goes")?;
    }
    check_eq(leaving(card, 9), None, "a card that stays")
}
