// Reads a list of stores from standard input, damaged ones among them, and writes what the reader answers for each. A case is a line of
// hexadecimal bytes: outer, inner, region, then the store. Blanks are skipped, and so is the rest of a line from a '#' on.
#![tactic(auto)]

mod lines;

use crate::lines::Case;
use std::io::{self, Read};

// So much of the input is read.
const MOST_INPUT: u64 = 65536;

// What the reader answers for a case; fewer than three bytes are no case.
fn answer<R: Print>(rt: &R, case: &[u8]) -> io::Result<()> {
    let [outer, inner, region, store @ ..] = case else {
        return Ok(());
    };
    match reader::read(
        store,
        u32::from(*outer),
        u32::from(*inner),
        u32::from(*region),
    ) {
        Ok(Some(value)) => println!(rt; "written {value}"),
        Ok(None) => println!(rt; "no column"),
        Err(error) => println!(rt; "refused {}", u64::from(error)),
    }
}

// Up to where a read fails. A line that does not end is no case.
fn main(rt: HostRuntime) -> io::Result<()> {
    let mut case = Case::new();
    for byte in rt.reader().take(MOST_INPUT).bytes().map_while(Result::ok) {
        if byte == b'\n' {
            answer(&rt, case.bytes())?;
            case.clear();
        } else {
            case.push(byte);
        }
    }
    Ok(())
}
