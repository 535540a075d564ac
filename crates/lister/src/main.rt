// lister LETTER IMAGE: judges a card image by a profile, and prints the record. The status is 0 if nothing is refused.
#![tactic(auto)]

use listing::{is_accepted, list, record_of};
use std::process::ExitCode;
use std::{env, fs};

fn main(rt: HostRuntime) -> anyhow::Result<ExitCode> {
    let Some((letter, path)) = arguments(&rt) else {
        eprintln!(rt;
            "usage: lister LETTER IMAGE, a profile letter from A to E and the path of a card image of 4096 bytes"
        )?;
        return Ok(ExitCode::FAILURE);
    };
    let Ok(bytes) = fs::read(&rt, path.as_str()) else {
        eprintln!(rt;
            "lister: cannot read {path}: expected the path of a card image of 4096 bytes"
        )?;
        return Ok(ExitCode::FAILURE);
    };
    let listing = list(letter.as_str(), bytes.as_slice());
    print!(rt; "{}", record_of(rt.alloc(), &listing)?)?;
    if !is_accepted(&listing) {
        return Ok(ExitCode::FAILURE);
    }
    Ok(ExitCode::SUCCESS)
}

// The two arguments; none if there are fewer or more.
fn arguments(rt: &HostRuntime) -> Option<(String, String)> {
    let mut args = env::args(rt).ok()?;
    let _program = args.next()?;
    let letter = args.next()?;
    let path = args.next()?;
    match args.next() {
        None => Some((letter, path)),
        Some(_) => None,
    }
}
