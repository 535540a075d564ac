// Directories of a citizen card, and how a card is judged by them.
#![tactic(auto)]

pub mod accepted;
pub mod check;
pub mod entries;
pub mod figures;
pub mod free;
pub mod judge;
pub mod nscp;
pub mod reading;
pub mod seal;
pub mod services;
pub mod slots;

pub use accepted::{Applications, Directory, Nscp, Services};
pub use check::check_card;
pub use entries::{Aid, Entry, Item, Slot, entry_of, put_entry};
pub use reading::{read_block, read_run};
pub use seal::{is_sealed, seal_directory};
pub use slots::SLOTS;
