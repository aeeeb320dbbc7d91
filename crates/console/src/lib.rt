// What the programs on a trace share: the file that an argument names.
#![tactic(auto)]

ghost use Rattle.std.specs.Counts.{IsPrefixLen};

use std::env::Env;
use std::fs::{File, Files};
use std::io::Read;
use std::str;

// The longest trace that a program takes (document 02, M-100).
pub const MOST: usize = 65536;

// More bytes than any path has.
const PATH_MAX: usize = 4096;

// Reads until the buffer is full, the file ends or a read fails, and answers how many bytes it put there.
fn read_full(file: &mut impl Read, text: &mut [u8]) -> usize
    ensures { IsPrefixLen result text.new }
{
    let mut done = 0;
    // By hand: `read_exact` doesn't say how much is there where the input ends early.
    while done < text.len() {
        match file.read(&mut text[done..]) {
            Ok(0) => break,
            Ok(n) => done += n,
            Err(_) => break,
        }
    }
    done
}

// As many bytes of the file that argument 1 names as there is room for; none of one that can't be read, as where its
// name is not UTF-8. Memory is fixed, and this never fails: callers keep a buffer beside the length that is answered.
pub fn read_file<R: Env + Files>(rt: &R, text: &mut [u8]) -> usize
    ensures { IsPrefixLen result text.new }
{
    let mut path = [0u8; PATH_MAX];
    let Ok(n) = rt.arg(1, &mut path) else {
        return 0;
    };
    let Ok(path) = str::from_utf8(&path[..n]) else {
        return 0;
    };
    let Ok(mut file) = File::open(rt, path) else {
        return 0;
    };
    read_full(&mut file, text)
}
