// The directories of a card, as they were read, each at the front of 48 bytes. Three types, since each is asked things of its own.
use layout::{Block, Profile, Sector};

// An application directory, and the profile that says where it stands and which sectors it lists.
#[derive(Clone, Copy)]
pub struct Applications {
    pub profile: Profile,
    pub bytes: [u8; 48],
}

// An NSCP directory, and its sector.
#[derive(Clone, Copy)]
pub struct Nscp {
    pub sector: Sector,
    pub bytes: [u8; 48],
}

// A services directory, and its first block.
#[derive(Clone, Copy)]
pub struct Services {
    pub block: Block,
    pub bytes: [u8; 48],
}

// The three directories of a card.
#[derive(Clone, Copy)]
pub struct Directory {
    pub applications: Applications,
    pub nscp: Nscp,
    pub services: Services,
}
