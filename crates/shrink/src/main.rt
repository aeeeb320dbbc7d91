// shrink FILE: prints the shortest trace with the same clocks and calls as the one in the file, or the number of the
// refusal. A file that can't be read, or none, counts as empty; one of more than 65,536 bytes is only told to be long.
// No trace comes out longer than it went in, so there is always room.
#![tactic(auto)]

use console::{MOST, read_file};
use std::io;

fn print_shrunk(rt: &impl Print, text: &[u8], buffer: &mut [u8]) -> io::Result<()> {
    match trace::shrink(text, buffer) {
        Ok(n) => rt.write_all(&buffer[..n]),
        Err(refusal) => {
            let number = refusal.number();
            println!(rt; "{number}")
        }
    }
}

// The first lines are as in `replay`: one function for both would take what follows as a closure over the handle.
fn main(rt: HostRuntime) -> io::Result<()> {
    let mut text = [0u8; MOST + 1];
    let n = read_file(&rt, &mut text);
    if n > MOST {
        return println!(rt; "long");
    }
    let mut buffer = [0u8; MOST];
    print_shrunk(&rt, &text[..n], &mut buffer)
}
