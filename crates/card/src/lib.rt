// Cards: what every card does, a card inside an image, and a card that leaves once.
#![tactic(auto)]

pub mod image;
pub mod interface;
pub mod lender;
pub mod tear;

pub use image::ImageCard;
pub use interface::{Card, Gone, Laid};
pub use tear::{Phase, Plan, TearCard, Torn};

#[cfg(test)]
mod tests;
