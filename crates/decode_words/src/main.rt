//! Reads words in hexadecimal, one a line, and prints the instruction that each one is.
#![tactic(auto)]

mod names;
mod text;

use std::io;

fn main(rt: HostRuntime) -> io::Result<()> {
    for line in rt.lines(rt.alloc()) {
        let line = line?;
        match u32::from_str_radix(line.trim(), 16) {
            Ok(word) => {
                let text = text::describe(rt.alloc(), word)?;
                println!(rt; "{text}")?;
            }
            Err(_) => println!(rt; "not a word")?,
        }
    }
    Ok(())
}
