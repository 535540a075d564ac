// What a program that reads services is given: a profile letter and the bytes of an image.
ghost use Rattle.std.specs.Prelude.{◌≡◌};
ghost use Rattle.full_listing.specs.Records.{input_of};

use layout::{Image, Profile, Refusal, image_of};

#[derive(Clone, Copy)]
pub struct Input {
    pub profile: Profile,
    pub image: Image,
}

// The profile and the image, or why one of the two is refused: the image's size comes first.
pub fn input_of(letter: &str, bytes: &[u8]) -> Result<Input, Refusal>
    ensures { result ≡ input_of letter.now bytes.now }
{
    let image = image_of(bytes)?;
    let profile = letter.parse::<Profile>()?;
    Ok(Input { profile, image })
}
