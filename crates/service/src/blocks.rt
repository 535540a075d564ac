// How many blocks a content takes.
ghost use Rattle.std.specs.Prelude.{◌≡◌, ◌+◌};
ghost use Rattle.service.specs.Frames.{blocks_for, header_size};
ghost use Rattle.service.specs.Laws.{Fewest};

// The blocks for so many content bytes, with header, mark and checksum.
pub fn blocks_for(content: u8) -> u8
    ensures value { result ≡ blocks_for content }
    ensures fewest { Fewest (header_size content + content + 4) result }
{
    let header: u16 = if content <= 0x7F { 2 } else { 3 };
    let bytes = header + u16::from(content) + 4;
    // `as`, since it is proved that nothing is lost, and `try_from` could fail
    bytes.div_ceil(16) as u8
}
