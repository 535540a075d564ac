// Entries of directories. One text reads every kind of entry that says how wide it is, where it begins and what its bytes mean.
ghost use Rattle.std.specs.Prelude.{◌≡◌, ℕ, ◌+◌, ◌*◌, ◌<◌, ◌≤◌, false, List, length, Option, ◌≢◌};
ghost use Rattle.directory.specs.Entries.{unused, entry_at, printed, entry_put, Fit, parse_aid, parse_item, parse_slot, print_aid, print_item, print_slot};
ghost use Rattle.std.proofs.Common.{rules};

use layout::{Block, Run};

// What an application directory says of a sector: an application identifier.
#[derive(Clone, Copy, PartialEq, Eq, Debug)]
pub struct Aid(pub u16);

// An item of the NSCP directory: a tag, and the block that it names.
#[derive(Clone, Copy, PartialEq, Eq, Debug)]
pub struct Item {
    pub tag: u8,
    pub block: Block,
}

// A slot of the services directory: a service's number and its run.
#[derive(Clone, Copy, PartialEq, Eq, Debug)]
pub struct Slot {
    pub number: u16,
    pub run: Run,
}

// A kind of entry. All bytes 00 are an unused place.
pub trait Entry: Sized {
    // the bytes before the first entry
    ghost HEADER: { ℕ };

    // the bytes of an entry
    ghost WIDTH: { ℕ };

    ghost parse: { List ℕ → Self };

    ghost print: { Self → List ℕ };

    // the values that a place can hold: those that fit their bytes and are not all 00
    ghost fits: { Self → Type 0 };

    const HEADER: usize;

    const WIDTH: usize;

    // What the bytes of a used place mean. That they are as many as an entry has stands in three contracts: an array of so many would need a constant of the trait as its length, which the language refuses.
    fn read(bytes: &[u8]) -> Self
        requires { length bytes.now ≡ WIDTH }
        ensures { result ≡ parse bytes.now };

    // Writes the bytes that mean the value.
    fn write(self, bytes: &mut [u8])
        requires { length bytes.old ≡ WIDTH }
        ensures { bytes.new ≡ print self };

    ghost small: { (HEADER < 48) × (WIDTH < 48) };

    ghost whole: { (e : Self) → length (print e) ≡ WIDTH };

    ghost used: { (e : Self) → fits e → unused (print e) ≡ false };

    ghost back: { (e : Self) → fits e → parse (print e) ≡ e };
}

// Entry `i` of a directory, counted from 0; none where it is unused or past the end.
#[tactic(auto, unfolding(crate::specs::Entries::entry_at))]
pub fn entry_of<E: Entry>(directory: &[u8; 48], i: u8) -> Option<E>
    ensures { result ≡ entry_at E.HEADER E.WIDTH E.parse directory.now i }
{
    let width = E::WIDTH;
    let start = E::HEADER + usize::from(i) * width;
    let bytes = directory.get(start..start + width)?;
    if is_unused(bytes) {
        None
    } else {
        Some(E::read(bytes))
    }
}

// Writes entry `i`, or marks it unused; nothing past the end. Reading gives it back, and the other entries are as they were.
#[tactic(auto, unfolding(crate::specs::Entries::entry_put))]
pub fn put_entry<E: Entry + Drop>(directory: &mut [u8; 48], i: u8, value: Option<E>)
    ensures put { directory.new ≡ entry_put E.HEADER E.WIDTH E.print directory.old i value }
    ensures back { Fit E.fits value → E.HEADER + i * E.WIDTH + E.WIDTH ≤ 48 → entry_at E.HEADER E.WIDTH E.parse directory.new i ≡ value }
    ensures others { (j : ℕ) → (j ≢ i) → entry_at E.HEADER E.WIDTH E.parse directory.new j ≡ entry_at E.HEADER E.WIDTH E.parse directory.old j }
{
    let width = E::WIDTH;
    let start = E::HEADER + usize::from(i) * width;
    if start + width <= 48 {
        fill_place(&mut directory[start..start + width], value);
    }
}

fn fill_place<E: Entry>(place: &mut [u8], value: Option<E>)
    requires { length place.old ≡ E.WIDTH }
    ensures { place.new ≡ printed E.print E.WIDTH value }
{
    match value {
        Some(value) => value.write(place),
        None => place.fill(0),
    }
}

// Whether all bytes are 00.
fn is_unused(bytes: &[u8]) -> bool
    ensures { result ≡ unused bytes.now }
{
    bytes.iter().all(|byte| *byte == 0)
}

impl Entry for Aid {
    ghost HEADER = { 2 };

    ghost WIDTH = { 2 };

    ghost parse = { parse_aid };

    ghost print = { print_aid };

    ghost fits = { λ a. (0 < a.0) × (a.0 < 65536) };

    ghost small = { Prim.search rules };

    ghost whole = { Prim.search rules };

    ghost used = { Prim.search rules };

    ghost back = { Prim.search rules };

    const HEADER: usize = 2;

    const WIDTH: usize = 2;

    fn read(bytes: &[u8]) -> Aid {
        Aid(u16::from_le_bytes([bytes[0], bytes[1]]))
    }

    fn write(self, bytes: &mut [u8]) {
        bytes.copy_from_slice(&self.0.to_le_bytes());
    }
}

impl Entry for Item {
    ghost HEADER = { 2 };

    ghost WIDTH = { 2 };

    ghost parse = { parse_item };

    ghost print = { print_item };

    ghost fits = { λ it. 0 < it.tag };

    ghost small = { Prim.search rules };

    ghost whole = { Prim.search rules };

    ghost used = { Prim.search rules };

    ghost back = { Prim.search rules };

    const HEADER: usize = 2;

    const WIDTH: usize = 2;

    fn read(bytes: &[u8]) -> Item {
        Item {
            tag: bytes[0],
            block: Block(bytes[1]),
        }
    }

    fn write(self, bytes: &mut [u8]) {
        bytes.copy_from_slice(&[self.tag, self.block.0]);
    }
}

impl Entry for Slot {
    ghost HEADER = { 4 };

    ghost WIDTH = { 4 };

    ghost parse = { parse_slot };

    ghost print = { print_slot };

    ghost fits = { λ s. (0 < s.number) × (s.number < 65536) };

    ghost small = { Prim.search rules };

    ghost whole = { Prim.search rules };

    ghost used = { Prim.search rules };

    ghost back = { Prim.search rules };

    const HEADER: usize = 4;

    const WIDTH: usize = 4;

    fn read(bytes: &[u8]) -> Slot {
        Slot {
            number: u16::from_be_bytes([bytes[0], bytes[1]]),
            run: Run {
                start: Block(bytes[2]),
                length: bytes[3],
            },
        }
    }

    fn write(self, bytes: &mut [u8]) {
        let [high, low] = self.number.to_be_bytes();
        bytes.copy_from_slice(&[high, low, self.run.start.0, self.run.length]);
    }
}
