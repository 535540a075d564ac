// Calls made on a station, and their answers as text. Allocator and station stay two parameters: a struct of both would have to hold the station by `&mut` for the length of one call.
ghost use Rattle.std.specs.Prelude.{◌≡◌, ◌≤◌, length, replicate};
ghost use Rattle.calls.specs.Performs.{FindSaid, ReadSaid, LaySaid, Said};

use crate::answers::{FILL, find_words, lay_words, read_words};
use crate::parse::Call;
use card::Card;
use station::Station;
use std::alloc::{AllocError, Global};

// The longest buffer that a line can ask for.
const LONGEST: usize = 65535;

// Makes a call, and answers its answer's text.
pub fn perform<C: Card>(
    heap: Global,
    station: &mut Station<C>,
    call: Call,
) -> Result<String, AllocError>
    ensures { Said C.Card call station.old station.new result }
{
    match call {
        Call::Find { number } => say_find(heap, station, number),
        Call::Read { number, room } => say_filled(heap, station, number, room),
        Call::Lay => say_lay(heap, station),
    }
}

fn say_find<C: Card>(
    heap: Global,
    station: &mut Station<C>,
    number: u16,
) -> Result<String, AllocError>
    ensures { FindSaid C.Card number station.old station.new result }
{
    let answer = station.find(number);
    find_words(heap, answer)
}

// Reads into a buffer of so many bytes, each filled with EE.
fn say_filled<C: Card>(
    heap: Global,
    station: &mut Station<C>,
    number: u16,
    room: u16,
) -> Result<String, AllocError>
    ensures { ReadSaid C.Card number (replicate room 0xEE) station.old station.new result }
{
    // An array: where there is no memory, a Vec would fail before the read, and the contract tells of a read that was made.
    let mut buffer = [FILL; LONGEST];
    say_read(heap, station, number, &mut buffer[..usize::from(room)])
}

fn say_read<C: Card>(
    heap: Global,
    station: &mut Station<C>,
    number: u16,
    buffer: &mut [u8],
) -> Result<String, AllocError>
    ensures { ReadSaid C.Card number buffer.old station.old station.new result }
{
    let answer = station.read(number, buffer);
    read_words(heap, answer, buffer)
}

fn say_lay<C: Card>(heap: Global, station: &mut Station<C>) -> Result<String, AllocError>
    ensures { LaySaid C.Card station.old station.new result }
{
    let laid = station.lay();
    String::from_str(heap, lay_words(laid))
}
