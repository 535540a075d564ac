// What the lender of an image knows of it once a card has worked in it: what was written is there, whether the card was called here or by a generic function. Each way of calling has a function of its own, since each is a promise of its own.
ghost use Rattle.std.specs.Prelude.{◌≡◌, true, is_ok};
ghost use Rattle.card.specs.Answers.{WriteSays};
ghost use Rattle.card.specs.Blocks.{put, blocks_of};

use crate::image::ImageCard;
use crate::interface::{Card, Gone};
use layout::{Block, Image};

// Writes a block by a card over the image.
pub fn write_by_card(image: &mut Image, block: Block, bytes: &[u8; 16])
    ensures { blocks_of image.new ≡ put (blocks_of image.old) block.0 bytes.now }
{
    let mut card = ImageCard::new(image);
    let _ = card.write(block, bytes);
}

// The same by a function over any card.
pub fn write_by_any_card(image: &mut Image, block: Block, bytes: &[u8; 16])
    ensures { blocks_of image.new ≡ put (blocks_of image.old) block.0 bytes.now }
{
    let mut card = ImageCard::new(image);
    let _ = write_on(&mut card, block, bytes);
}

fn write_on<C: Card>(card: &mut C, block: Block, bytes: &[u8; 16]) -> Result<(), Gone>
    ensures says { WriteSays (C.blocks card.old) (C.present card.old) (C.blocks card.new) (C.present card.new) block.0 bytes.now result }
    ensures steady { C.steady card.old → (is_ok result ≡ true) × C.steady card.new }
    ensures same { C.same card.old card.new }
{
    card.write(block, bytes)
}
