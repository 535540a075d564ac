// Words and lines that the records of the programs share.
#![tactic(auto)]

pub mod hexadecimal;
pub mod lines;

pub use hexadecimal::{hex_byte, hex_bytes};
pub use lines::{free_line, profile_line, refused_line, slot_words};
