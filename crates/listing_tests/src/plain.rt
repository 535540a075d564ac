// The lister's listing: the sample card, and each way in which an input or a card is refused.
use crate::cards::{bare_sample, broken, check_eq};
use crate::directories::{Tried, check_applications, check_leaving, check_nscp, check_services};
use directory::Directory;
use layout::{Image, Refusal};
use listing::{is_accepted, list, record_of};
use std::alloc::Global;
use std::test::Fail;

fn check_record(heap: Global, letter: &str, bytes: &[u8], expected: &str) -> Result<(), Fail> {
    let record = record_of(heap, &list(letter, bytes))?;
    check_eq(record.as_str(), expected, expected)
}

// Letters that are judged after the image's size, and what is said of the sample under each.
const LETTERS: [(&str, &str); 7] = [
    ("A", "profile A\n1234 0C 01\nfree 38\n"),
    ("E", "profile E\n1234 0C 01\nfree 98\n"),
    ("D", "profile D\nrefused 3\n"),
    ("F", "refused 1\n"),
    ("a", "refused 1\n"),
    ("AA", "refused 1\n"),
    ("", "refused 1\n"),
];

#[test]
fn records(rt: HostRuntime) -> Result<(), Fail> {
    let card = bare_sample();
    assert!(rt; is_accepted(&list("A", &card)));
    for (letter, text) in LETTERS {
        check_record(rt.alloc(), letter, &card, text)?;
    }
    check_record(rt.alloc(), "F", &card[0..4095], "refused 28\n")?;
    check_record(rt.alloc(), "A", &[], "refused 28\n")?;
    let wrong = broken(card, &[(47, 0x41)]);
    assert!(rt; !is_accepted(&list("A", &wrong)));
    check_record(rt.alloc(), "A", &wrong, "profile A\nrefused 4\n")?;
    Ok(())
}

// What the lister makes of a card.
struct Lister;

impl Tried for Lister {
    fn sample() -> Image {
        bare_sample()
    }

    fn judge(letter: &str, image: &Image) -> Result<Directory, Refusal> {
        list(letter, image)?.verdict
    }
}

#[test]
fn application_directory() -> Result<(), Fail> {
    check_applications::<Lister>()
}

#[test]
fn nscp_directory() -> Result<(), Fail> {
    check_nscp::<Lister>()
}

#[test]
fn services_directory() -> Result<(), Fail> {
    check_services::<Lister>()
}

#[test]
fn a_card_that_leaves() -> Result<(), Fail> {
    check_leaving::<Lister>()
}
