// Lay: the holder has put a card on the reader.
ghost use Rattle.std.specs.Prelude.{◌≡◌, true};
ghost use Rattle.card.specs.Answers.{LaySays, is_yes};
ghost use Rattle.station.specs.Stations.{with_card};

use crate::station::Station;
use card::{Card, Laid};

impl<C: Card> Station<C> {
    // Asks the card once, and answers as it does. Nothing is refused.
    pub fn lay(&mut self) -> Laid
        ensures says { LaySays (C.blocks self.old.card) (C.blocks self.new.card) (C.present self.new.card) result }
        ensures steady { C.steady self.old.card → (is_yes result ≡ true) × C.steady self.new.card }
        ensures station { self.new ≡ with_card self.old self.new.card }
    {
        self.card.lay()
    }
}
