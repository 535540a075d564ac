// Checksums: kinds with two laws, one fold over any kind, and what the laws give.
ghost use Rattle.std.specs.Prelude.{◌≡◌, ℕ, ◌^◌, ◌<◌, List, fold, ◌≢◌, refl};
ghost use Rattle.layout.specs.Crc.{Register, stepped};
ghost use Rattle.layout.specs.Differ.{Bytes, DifferInOne};
ghost use Rattle.layout.specs.CrcShows.{register8, register16};
ghost use Rattle.layout.specs.Rounds.{stepped_lt, stepped_apart, stepped_shows};
ghost use Rattle.std.proofs.Common.{lit<};

// A kind of checksum: a start value, and a step by one byte.
pub trait ChecksumKind {
    type State: Copy;

    // the states that a register of this kind can be in
    ghost fits: { Self.State → Type 0 };

    ghost START: { Self.State };

    ghost step: { Self.State → ℕ → Self.State };

    const START: Self::State;

    fn update(state: Self::State, byte: u8) -> Self::State
        ensures { result ≡ step state byte };

    ghost starts: { fits START };

    ghost stays: { (s : Self.State) (b : ℕ) → fits s → b < 256 → fits (step s b) };

    // with one byte, different states step to different states
    ghost apart: { (s t : Self.State) (b : ℕ) → fits s → fits t → b < 256 → step s b ≡ step t b → s ≡ t };

    // from one state, different bytes step to different states
    ghost shows: { (s : Self.State) (b c : ℕ) → fits s → b < 256 → c < 256 → step s b ≡ step s c → b ≡ c };
}

// The two kinds are impls of one trait over one `step_by`, and not one type over constants, since their registers differ in type.

// The 8-bit kind, of directories: start C7, polynomial 1D.
pub struct Crc8;

// The 16-bit kind, of service data: start FFFF, polynomial 1021.
pub struct Crc16;

impl ChecksumKind for Crc8 {
    type State = u8;

    ghost fits = { λ s. s < 2 ^ 8 };

    ghost START = { 0xC7 };

    const START: u8 = 0xC7;

    ghost step = { stepped 8 0x1D };

    ghost starts = { lit< tt };

    ghost stays = { stepped_lt 8 0x1D register8 };

    ghost apart = { stepped_apart 8 0x1D register8 refl };

    ghost shows = { stepped_shows 8 0x1D register8 refl };

    fn update(state: u8, byte: u8) -> u8 {
        // `as`, since it is proved that nothing is lost, and `try_from` could fail
        step_by(8, 0x1D, u16::from(state), byte) as u8
    }
}

impl ChecksumKind for Crc16 {
    type State = u16;

    ghost fits = { λ s. s < 2 ^ 16 };

    ghost START = { 0xFFFF };

    const START: u16 = 0xFFFF;

    ghost step = { stepped 16 0x1021 };

    ghost starts = { lit< tt };

    ghost stays = { stepped_lt 16 0x1021 register16 };

    ghost apart = { stepped_apart 16 0x1021 register16 refl };

    ghost shows = { stepped_shows 16 0x1021 register16 refl };

    fn update(state: u16, byte: u8) -> u16 {
        step_by(16, 0x1021, state, byte)
    }
}

// One byte is added at the top of a register of `width` bits. Then eight bits leave there, and for each that is a one the polynomial is added.
fn step_by(width: u8, polynomial: u16, state: u16, byte: u8) -> u16
    requires register { Register width polynomial }
    requires state { state < 2 ^ width }
    ensures value { result ≡ stepped width polynomial state byte }
    ensures fits { result < 2 ^ width }
{
    let top = 1u16 << (width - 1);
    let mut register = state ^ (u16::from(byte) << (width - 8));
    for _i in 0..8u8 {
        register = if register < top {
            register * 2
        } else {
            ((register - top) * 2) ^ polynomial
        };
    }
    register
}

// The checksum of some bytes. The project fixes this form of the fold, a `for` over the bytes.
pub fn checksum<K: ChecksumKind>(bytes: &[u8]) -> K::State
    ensures value { result ≡ fold K.step K.START bytes.now }
    ensures shows { (ys : List ℕ) → Bytes ys → DifferInOne bytes.now ys → fold K.step K.START ys ≢ result }
{
    let mut state = K::START;
    for byte in bytes {
        state = K::update(state, *byte);
    }
    state
}
