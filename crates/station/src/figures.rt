// All figures that are known from outside the project, together.
ghost use Rattle.std.specs.Prelude.{◌≡◌};
ghost use Rattle.layout.specs.Figures.{answered};
ghost use Rattle.station.specs.Figures.{Together};

use layout::Figures;

// The figures of the memory map as the code has them; and all figures of the definitions.
#[tactic(auto, using(crate::proofs::KnownFigures::together))]
pub fn known_figures() -> Figures
    ensures answers { result ≡ answered }
    ensures together { Together }
{
    layout::known_figures()
}
