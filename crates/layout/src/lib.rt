// The memory of a 4K citizen card: its blocks and sectors, runs of blocks, the five profiles, the two checksums, and why a card is refused.
#![tactic(auto)]

pub mod blocks;
pub mod checksums;
pub mod figures;
pub mod images;
pub mod numbers;
pub mod profiles;
pub mod ranks;
pub mod refusals;
pub mod runs;
pub mod sectors;

pub use checksums::{ChecksumKind, Crc8, Crc16, checksum};
pub use figures::{Figures, known_figures};
pub use images::{Image, image_of};
pub use numbers::{Block, Rank, Sector};
pub use profiles::{Mad, Profile};
pub use refusals::{Reason, Refusal};
pub use runs::Run;
