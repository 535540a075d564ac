// Figures that are known from outside the project: the code answers them, and the definitions have them.
ghost use Rattle.std.specs.Prelude.{◌≡◌};
ghost use Rattle.layout.specs.Figures.{Known, answered};

use crate::checksums::{Crc8, Crc16, checksum};
use crate::numbers::Block;
use crate::runs::Run;

// A MAD without its checksum, from the public note on application directories.
const SAMPLE_MAD: [u8; 31] = [
    0x01, 0x01, 0x08, 0x01, 0x08, 0x01, 0x08, 0x00, 0x00, 0x00, 0x00, 0x00, 0x00, 0x04, 0x00, 0x03,
    0x10, 0x03, 0x10, 0x02, 0x10, 0x02, 0x10, 0x00, 0x00, 0x00, 0x00, 0x00, 0x00, 0x11, 0x30,
];

// The figures as the code has them.
#[derive(Clone, Copy)]
pub struct Figures {
    // the 8-bit checksum of the sample MAD
    pub mad: u8,
    // the 16-bit checksum of the text 123456789
    pub digits: u16,
    // the blocks of the run of 2 from block 0E on, and what follows them
    pub run: [Option<Block>; 3],
    // whether blocks 127, 128, 143 and 255 are trailers
    pub trailers: [bool; 4],
}

// The known figures, computed.
#[tactic(auto, using(crate::proofs::KnownFigures::known))]
pub fn known_figures() -> Figures
    ensures answers { result ≡ answered }
    ensures known { Known }
{
    let run = Run {
        start: Block(0x0E),
        length: 2,
    };
    Figures {
        mad: checksum::<Crc8>(&SAMPLE_MAD),
        digits: checksum::<Crc16>(b"123456789"),
        run: [run.block(0), run.block(1), run.block(2)],
        trailers: [
            Block(127).is_trailer(),
            Block(128).is_trailer(),
            Block(143).is_trailer(),
            Block(255).is_trailer(),
        ],
    }
}
