// One list of calls on both cards, with the tear card leaving at each count.
use crate::image::ImageCard;
use crate::interface::{Card, Gone, Laid};
use crate::tear::{Plan, TearCard, Torn};
use layout::Block;

const NEW: [u8; 16] = [7; 16];

const OTHER: [u8; 16] = [9; 16];

// A read as one letter: the old bytes, the new, others, or gone.
fn read<C: Card>(card: &mut C) -> u8 {
    match card.read(Block(5)).map(|bytes| bytes[3]) {
        Ok(0) => b'o',
        Ok(7) => b'n',
        Ok(_) => b'?',
        Err(Gone) => b'-',
    }
}

fn write<C: Card>(card: &mut C) -> u8 {
    match card.write(Block(5), &NEW) {
        Ok(()) => b'd',
        Err(Gone) => b'-',
    }
}

fn lay<C: Card>(card: &mut C) -> u8 {
    match card.lay() {
        Laid::Yes => b'y',
        Laid::No => b'x',
    }
}

// Read, write, read, lay twice, read.
fn calls<C: Card>(card: &mut C) -> [u8; 6] {
    [
        read(card),
        write(card),
        read(card),
        lay(card),
        lay(card),
        read(card),
    ]
}

fn torn_at(answers: u32, torn: Torn) -> [u8; 6] {
    let mut image = [0u8; 4096];
    let plan = Plan {
        answers,
        torn,
        refusals: 1,
    };
    let mut card = TearCard::new(&mut image, plan);
    calls(&mut card)
}

#[test]
fn both_cards_by_one_table(rt: HostRuntime) {
    let table = [
        (0, Torn::Old, b"---xyo"),
        (1, Torn::Old, b"o--xyo"),
        (1, Torn::New, b"o--xyn"),
        (1, Torn::Other(OTHER), b"o--xy?"),
        (2, Torn::Old, b"od-xyn"),
        (3, Torn::Old, b"odnyy-"),
        (4, Torn::Old, b"odnyyn"),
    ];
    for (answers, torn, expected) in table {
        assert_eq!(rt;
            torn_at(answers, torn),
            *expected,
            "after {answers} answers"
        );
    }
    let mut image = [0u8; 4096];
    let mut card = ImageCard::new(&mut image);
    assert_eq!(rt; calls(&mut card), *b"odnyyn");
}
