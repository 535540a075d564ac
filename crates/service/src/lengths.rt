// Lengths as objects and frames write them: one byte up to 7F, or 81 and one byte.
ghost use Rattle.std.specs.Prelude.{◌≡◌};
ghost use Rattle.service.specs.Lengths.{length_at};

// A length that was read: the offset after it, and how many bytes it counts.
#[derive(Clone, Copy)]
pub struct Length {
    pub after: usize,
    pub count: usize,
}

// The length at an offset; none if it is cut off, or begins with a byte that begins no length.
pub(crate) fn length_at(bytes: &[u8], at: usize) -> Option<Length>
    ensures { result ≡ length_at bytes.now at }
{
    match *bytes.get(at)? {
        count @ 0..=0x7F => Some(Length {
            after: at + 1,
            count: usize::from(count),
        }),
        0x81 => Some(Length {
            after: at + 2,
            count: usize::from(*bytes.get(at + 1)?),
        }),
        _ => None,
    }
}
