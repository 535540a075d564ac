// Figures that are known from outside the project: the code answers them, and the definitions have them.
ghost use Rattle.std.specs.Prelude.{◌≡◌, [], ◌∷◌};
ghost use Rattle.service.specs.Figures.{Known};

use crate::blocks::blocks_for;

// The blocks for contents of 10, 11 and 255 bytes, as the code has them; and the figures of the definitions.
#[tactic(auto, using(crate::proofs::KnownFigures::known))]
pub fn known_figures() -> [u8; 3]
    ensures blocks { result ≡ 1 ∷ 2 ∷ 17 ∷ [] }
    ensures known { Known }
{
    [blocks_for(10), blocks_for(11), blocks_for(255)]
}
