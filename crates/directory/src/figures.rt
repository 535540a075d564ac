// Figures that are known from outside the project: the definitions have them.
ghost use Rattle.std.specs.Prelude.{◌≡◌};
ghost use Rattle.directory.specs.Figures.{Known};

use layout::{Crc8, checksum};

// The seal of an empty services directory, as the code has it; and the figures of the definitions.
#[tactic(auto, using(crate::proofs::KnownFigures::known))]
pub fn known_figures() -> u8
    ensures seal { result ≡ 0x16 }
    ensures known { Known }
{
    checksum::<Crc8>(&[0u8; 47])
}
