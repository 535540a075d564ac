// The seal of a directory: its first byte, the 8-bit checksum of all bytes after it.
ghost use Rattle.std.specs.Prelude.{◌≡◌, ◌<◌, true, length};
ghost use Rattle.directory.specs.Seals.{sealed, resealed};

use layout::{Crc8, checksum};

// Whether the first byte is the checksum of the others; never of no bytes at all.
pub fn is_sealed(directory: &[u8]) -> bool
    ensures { result ≡ sealed directory.now }
{
    directory
        .split_first()
        .is_some_and(|(sum, rest)| *sum == checksum::<Crc8>(rest))
}

// Gives a directory its seal: only its first byte changes, and then it is sealed.
pub fn seal_directory(directory: &mut [u8])
    ensures value { directory.new ≡ resealed directory.old }
    ensures passes { 0 < length directory.old → sealed directory.new ≡ true }
{
    if let Some((sum, rest)) = directory.split_first_mut() {
        *sum = checksum::<Crc8>(rest);
    }
}
