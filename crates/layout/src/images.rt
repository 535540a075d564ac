// Card images: a card's 256 blocks as one string of bytes, block 0 first.
ghost use Rattle.std.specs.Prelude.{◌≡◌};
ghost use Rattle.layout.specs.Images.{image_of};

use crate::refusals::{Reason, Refusal};

// The bytes of a card: 256 blocks of 16.
pub type Image = [u8; 4096];

// The image that these bytes are; refused if they are not 4,096.
pub fn image_of(bytes: &[u8]) -> Result<Image, Refusal>
    ensures { result ≡ image_of bytes.now }
{
    Image::try_from(bytes).map_err(|_| Refusal::at(Reason::ImageSize, 0))
}
