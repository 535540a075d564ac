// samples LETTER IMAGE ..: prints the records of several cards, one after another. It runs the stored cards in the gate.
#![tactic(auto)]

use full_listing::list;
use std::{env, fs};

fn main(rt: HostRuntime) -> anyhow::Result<()> {
    let words: Vec<String> = env::args(&rt)?.skip(1).collect(rt.alloc())?;
    for card in words.as_slice().chunks_exact(2) {
        if let [letter, path] = card {
            print_card(&rt, letter.as_str(), path.as_str())?;
        }
    }
    Ok(())
}

fn print_card(rt: &HostRuntime, letter: &str, path: &str) -> anyhow::Result<()> {
    let bytes = fs::read(rt, path)?;
    let listing = list(rt.alloc(), letter, bytes.as_slice())?;
    println!(rt; "{path}")?;
    print!(rt; "{}", listing.text)?;
    Ok(())
}
