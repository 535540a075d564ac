// A card inside an image that is lent to it: always on, and never gone.
ghost use Rattle.std.specs.Prelude.{◌≡◌, true, length, refl};
ghost use Rattle.card.specs.Blocks.{put, blocks_of, length_sixteen};

use crate::interface::{Card, Gone, Laid};
use layout::{Block, Image};

// The lent bytes are the lender's again when the card is let go.
#[derive(Drop)]
pub struct ImageCard<'a> {
    image: &'a mut Image,
}

impl<'a> ImageCard<'a> {
    // A card over an image of 4,096 bytes.
    pub fn new(image: &'a mut Image) -> ImageCard<'a>
        ensures bytes { result.image.now ≡ image.old }
        ensures lent { result.image.ghost_name ≡ image.entry.ghost_name }
    {
        ImageCard { image }
    }
}

impl Card for ImageCard<'_> {
    ghost blocks = { λ card. blocks_of card.image.now };

    ghost present = { λ card. true };

    ghost steady = { λ card. Unit {0} };

    ghost same = { λ card later. later.image.ghost_name ≡ card.image.ghost_name };

    ghost full = { λ card b. length_sixteen _ };

    ghost there = { λ card s. refl };

    fn read(&mut self, block: Block) -> Result<[u8; 16], Gone> {
        Ok(block_of(self.image, block))
    }

    fn write(&mut self, block: Block, bytes: &[u8; 16]) -> Result<(), Gone> {
        put_block(self.image, block, bytes);
        Ok(())
    }

    fn lay(&mut self) -> Laid {
        Laid::Yes
    }
}

// The sixteen bytes of a block.
#[tactic(auto, using(crate::proofs::Sixteen::part_is))]
pub(crate) fn block_of(image: &Image, block: Block) -> [u8; 16]
    ensures { result ≡ blocks_of image.now block.0 }
{
    let start = 16 * usize::from(block.0);
    image[start..start + 16].try_into().unwrap()
}

// Replaces a block: lends its sixteen bytes to be copied into.
pub(crate) fn put_block(image: &mut Image, block: Block, bytes: &[u8; 16])
    ensures put { blocks_of image.new ≡ put (blocks_of image.old) block.0 bytes.now }
    ensures whole { length bytes.now ≡ 16 }
{
    let start = 16 * usize::from(block.0);
    copy_bytes(&mut image[start..start + 16], bytes);
}

// The project fixes how a write reaches the image: it is lent whole, and then sixteen bytes of it are.
fn copy_bytes(to: &mut [u8], from: &[u8])
    requires { length to.old ≡ length from.now }
    ensures { to.new ≡ from.now }
{
    to.copy_from_slice(from);
}
