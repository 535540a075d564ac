// What the fuller listing says of a card image.
#![tactic(auto)]

pub mod cards;
pub mod images;
pub mod input;
pub mod services;

pub use images::{Listing, list};
pub use input::{Input, input_of};
