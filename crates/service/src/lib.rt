// The data of one service: objects, and the frame around them that fills a run.
#![tactic(auto)]

pub mod blocks;
pub mod figures;
pub mod frames;
pub mod lengths;
pub mod objects;
pub mod writing;

pub use blocks::blocks_for;
pub use figures::known_figures;
pub use frames::{Frame, read_frame};
pub use objects::{Object, count_objects, next_object};
pub use writing::{LONGEST_RUN, write_frame};

#[cfg(test)]
mod tests;
