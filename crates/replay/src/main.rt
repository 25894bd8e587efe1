// Replays fixed lists of answers against the proved crates, and prints a line for each list: how many cases it has and how
// many differ. The answers are those of the Rust: of its standard library for `utf8`, of the oracle for the others.
#![tactic(auto)]

ghost use Rattle.std.specs.Io.{ReadsAtMost};
ghost use Rattle.io.specs.Counts.{IsPrefixLen};

use std::fs::File;
use std::io::{ErrorKind, Read, Result};
use std::rt::Files;

mod calls;
mod cases;
mod list;
mod words;

// Reads to the start of `buffer` until it is full or the input ends, and answers how many bytes were read. As in `bench`: the programs
// share no crate, and the library has no such method that tells of an error.
fn read_full(input: &mut impl Read, buffer: &mut [u8]) -> Result<usize>
    ensures { ReadsAtMost result buffer.new }
{
    let mut done = 0;
    for _ in 0..u64::MAX {
        if buffer.len() <= done {
            break;
        }
        match input.read(&mut buffer[done..]) {
            Ok(0) => break,
            Ok(count) => done += count,
            Err(error) if error.kind() == ErrorKind::Interrupted => {}
            Err(error) => return Err(error),
        }
    }
    Ok(done)
}

fn read_file(rt: &impl Files, path: &str, buffer: &mut [u8]) -> Result<usize>
    ensures { ReadsAtMost result buffer.new }
{
    let mut file = File::open(rt, path)?;
    read_full(&mut file, buffer)
}

// Reads a file whole to the start of `buffer`, and answers how many bytes it has: 0, with a message, if it cannot. A file
// that fills the buffer may be longer, so it is refused.
fn load(rt: &(impl Files + Eprint), path: &str, buffer: &mut [u8]) -> usize
    ensures { IsPrefixLen result buffer.new }
{
    match read_file(rt, path, buffer) {
        Ok(n) if n < buffer.len() => n,
        Ok(_) => {
            let _ = eprintln!(rt; "{path}: too long");
            0
        }
        Err(error) => {
            let _ = eprintln!(rt; "{path}: {error}");
            0
        }
    }
}

// The exit status tells only whether the lines could be printed: the line is the verdict.
fn replay(rt: &(impl Files + Print + Eprint), path: &str) -> Result<()> {
    let mut buffer = io::large_buffer();
    let n = load(rt, path, &mut buffer);
    let tally = list::replay(&buffer[..n]);
    println!(rt; "{path}: {} cases, {} differ", tally.cases, tally.differ)
}

fn main(rt: HostRuntime) -> Result<()> {
    replay(&rt, "utf8.list")?;
    replay(&rt, "check-1.list")?;
    replay(&rt, "check-2.list")?;
    replay(&rt, "split-1.list")?;
    replay(&rt, "split-2.list")?;
    replay(&rt, "run-1.list")?;
    replay(&rt, "run-2.list")?;
    replay(&rt, "text.list")?;
    replay(&rt, "calls-1.list")?;
    replay(&rt, "calls-2.list")
}
