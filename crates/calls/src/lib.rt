// Calls as a clerk writes them, a line each, and their answers as text.
#![tactic(auto)]

pub mod answers;
pub mod digits;
pub mod making;
pub mod parse;
pub mod words;

pub use answers::record_line;
pub use digits::Notation;
pub use making::perform;
pub use parse::{Call, is_passed_over, parse_call};
pub use words::{first_word, trim};
