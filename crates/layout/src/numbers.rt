// The three numberings of a card. Each is a type of its own, so that none is taken for another; the project fixes the three types.

// A sector: 0 to 39 on a card.
#[derive(Clone, Copy, PartialEq, Eq, Debug)]
pub struct Sector(pub u8);

// A block by its absolute number: 0 to 255, trailers counted.
#[derive(Clone, Copy, PartialEq, Eq, Debug)]
pub struct Block(pub u8);

// A data block by the number of data blocks below it: 0 to 215 on a card.
#[derive(Clone, Copy, PartialEq, Eq, Debug)]
pub struct Rank(pub u8);
