// A station: finds and reads services on any card.
#![tactic(auto)]

pub mod figures;
pub mod find;
pub mod frame;
pub mod lay;
pub mod numbers;
pub mod read;
pub mod search;
pub mod station;

pub use figures::known_figures;
pub use frame::Reading;
pub use search::Found;
pub use station::Station;
