// desk LETTER IMAGE [options]: runs the calls on standard input, one on a line, on a station with the card in an image, and prints the record.
#![tactic(auto)]

mod options;

use calls::{is_passed_over, parse_call, perform, record_line, trim};
use card::{Card, ImageCard, TearCard};
use full_listing::{Input, input_of};
use layout::{Image, Profile};
use options::Options;
use station::Station;
use std::io::{BufRead, BufReader, Write};
use std::process::ExitCode;
use std::{env, fs, io};
use text::{profile_line, refused_line};

const USAGE: &str =
    "usage: desk LETTER IMAGE [--station N] [--last N] [--tear COUNT old|new|HEX32 LAYS] [--save FILE], calls on standard input";

fn main(rt: HostRuntime) -> anyhow::Result<ExitCode> {
    let words = words(&rt);
    let Some(options) = words
        .as_ref()
        .and_then(|words| Options::from_words(words.as_slice()))
    else {
        eprintln!(rt; "{USAGE}")?;
        return Ok(ExitCode::FAILURE);
    };
    let Ok(bytes) = fs::read(&rt, options.path) else {
        let path = options.path;
        eprintln!(rt; "desk: cannot read {path}: expected the path of a card image of 4096 bytes")?;
        return Ok(ExitCode::FAILURE);
    };
    match input_of(options.letter, bytes.as_slice()) {
        Ok(input) => {
            let image = run(&rt, input, options)?;
            save(&rt, &image, options)?;
            Ok(ExitCode::SUCCESS)
        }
        Err(refusal) => {
            print!(rt; "{}", refused_line(rt.alloc(), refusal.number())?)?;
            Ok(ExitCode::FAILURE)
        }
    }
}

// The words behind the program's name; none if one is no text, or there is no memory for them.
fn words(rt: &HostRuntime) -> Option<Vec<String>> {
    env::args(rt).ok()?.skip(1).collect(rt.alloc()).ok()
}

// Runs the calls on the card in an image, and answers the image as they leave it.
fn run(rt: &HostRuntime, input: Input, options: Options<'_>) -> anyhow::Result<Image> {
    let Input { profile, mut image } = input;
    print!(rt; "{}", profile_line(rt.alloc(), profile)?)?;
    match options.plan {
        Some(plan) => answer_all(rt, profile, TearCard::new(&mut image, plan), options)?,
        None => answer_all(rt, profile, ImageCard::new(&mut image), options)?,
    }
    Ok(image)
}

// Answers the lines of standard input, one by one, on a station with a card.
fn answer_all<C: Card + Drop>(
    rt: &HostRuntime,
    profile: Profile,
    card: C,
    options: Options<'_>,
) -> io::Result<()> {
    let mut station = Station::new(profile, card, options.station, options.last);
    for line in BufReader::new(rt.alloc(), rt.stdin())?.split(rt.alloc(), b'\n') {
        let line = line?;
        answer(rt, &mut station, trim(line.as_slice()))?;
    }
    Ok(())
}

// Answers a line, unless it is empty or a remark.
fn answer<C: Card>(rt: &HostRuntime, station: &mut Station<C>, line: &[u8]) -> io::Result<()> {
    if is_passed_over(line) {
        return Ok(());
    }
    let answer = match parse_call(line) {
        Some(call) => perform(rt.alloc(), station, call)?,
        None => String::from_str(rt.alloc(), "not understood")?,
    };
    let record = record_line(rt.alloc(), line, answer.as_str())?;
    rt.stdout().write_all(record.as_slice())
}

// Writes the image beside the file that is asked for, and puts it in its place when it is whole.
fn save(rt: &HostRuntime, image: &Image, options: Options<'_>) -> anyhow::Result<()> {
    if let Some(path) = options.save {
        let part = format!(in rt.alloc(); "{path}.part")?;
        fs::write(rt, part.as_str(), image.as_slice())?;
        fs::rename(rt, part.as_str(), path)?;
    }
    Ok(())
}
