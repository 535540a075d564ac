// The interface of a card. A card is known by its 256 blocks of sixteen bytes and by whether it is on the reader. The holder lifts it when they like.
ghost use Rattle.std.specs.Prelude.{◌≡◌, ℕ, Bool, true, length, is_ok, Some, codes};
ghost use Rattle.card.specs.Answers.{ReadSays, WriteSays, LaySays, is_yes};
ghost use Rattle.card.specs.Blocks.{Blocks};

use layout::Block;
use std::error::Error;
use std::fmt;

// Why a read or a write is not answered: the card left the reader at it, or was off already.
#[derive(Clone, Copy, PartialEq, Eq, Debug)]
pub struct Gone;

impl fmt::Display for Gone {
    ghost output = { λ gone. Some (codes "the card left the reader") };

    fn fmt<W: fmt::Write>(&self, f: &mut fmt::Formatter<W>) -> fmt::Result {
        f.write_str("the card left the reader")
    }
}

impl Error for Gone {}

// What a lay answers: whether the card that was first laid on is on the reader again. An enum of its own and no `bool`, so that a call reads as what it asks.
#[derive(Clone, Copy, PartialEq, Eq, Debug)]
pub enum Laid {
    Yes,
    No,
}

// A block and its new bytes stay two parameters of a write, as the layout speaks of them; only a write has both.
pub trait Card {
    // what it holds
    ghost blocks: { Self → Blocks };

    // it is on the reader
    ghost present: { Self → Bool };

    // it does not leave: it is on, answers every read and write, says yes to every lay, and stays so
    ghost steady: { Self → Type 0 };

    // both are this card, over the memory that was lent to it
    ghost same: { Self → Self → Type 0 };

    ghost full: { (card : Self) (b : ℕ) → length (blocks card b) ≡ 16 };

    ghost there: { (card : Self) → steady card → present card ≡ true };

    // The bytes of a block, with nothing changed. Gone if the card leaves at this read, which takes it off, or is off already.
    fn read(&mut self, block: Block) -> Result<[u8; 16], Gone>
        ensures says { ReadSays (blocks self.old) (present self.old) (blocks self.new) (present self.new) block.0 result }
        ensures steady { steady self.old → (is_ok result ≡ true) × steady self.new }
        ensures same { same self.old self.new };

    // Ok, with the new bytes in this block and every other block untouched. Gone if the card leaves at this write: it is off then, and nobody knows what the block holds. Gone, with nothing changed, if it is off already.
    fn write(&mut self, block: Block, bytes: &[u8; 16]) -> Result<(), Gone>
        ensures says { WriteSays (blocks self.old) (present self.old) (blocks self.new) (present self.new) block.0 bytes.now result }
        ensures steady { steady self.old → (is_ok result ≡ true) × steady self.new }
        ensures same { same self.old self.new };

    // Asks whether the card that was first laid on is on the reader, after the holder has put one there. Blocks never change by it.
    fn lay(&mut self) -> Laid
        ensures says { LaySays (blocks self.old) (blocks self.new) (present self.new) result }
        ensures steady { steady self.old → (is_yes result ≡ true) × steady self.new }
        ensures same { same self.old self.new };
}
