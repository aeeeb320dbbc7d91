// replay FILE: replays the trace that the file holds, and prints ok, or the number of the refusal, a tab and the line.
// A file that can't be read, or none, counts as empty; one of more than 65,536 bytes is only told to be long.
#![tactic(auto)]

use console::{MOST, read_file};
use playback::Stopped;
use std::io;

fn print_outcome(rt: &impl Print, outcome: Result<(), Stopped>) -> io::Result<()> {
    match outcome {
        Ok(()) => println!(rt; "ok"),
        Err(stopped) => {
            let number = stopped.why.number();
            let line = stopped.line;
            println!(rt; "{number}\t{line}")
        }
    }
}

fn main(rt: HostRuntime) -> io::Result<()> {
    let mut text = [0u8; MOST + 1];
    let n = read_file(&rt, &mut text);
    if n > MOST {
        return println!(rt; "long");
    }
    print_outcome(&rt, playback::replay(&text[..n]).outcome)
}
