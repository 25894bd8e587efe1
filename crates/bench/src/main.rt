// Reads a form and a sheet, joined, from standard input, and prints what their run answers.
#![tactic(auto)]

ghost use Rattle.std.specs.Prelude.{◌≡◌, ◌≤◌, length, take};
ghost use Rattle.std.specs.Io.{ReadsAtMost};
ghost use Rattle.io.specs.Counts.{IsPrefixLen};
ghost use Rattle.rules.specs.Outcome.{ok};
ghost use Rattle.rules.specs.Bench.{bench};

use eval_missing::MISSING_WORDS;
use run_fields::ANSWER_WORDS;
use split_arg::ITEM_WORDS;
use std::io::{ErrorKind, Read, Result};

mod output;

// No form and sheet of more than 39,212 bytes together are accepted, so the first 39,213 bytes of an input decide its answer.
const INPUT_BYTES: usize = 39213;

// What is read of an input, empty. The number stands in the contract too, since no contract can speak of what `main` reads.
fn input_buffer() -> [u8; INPUT_BYTES]
    ensures { 39213 ≡ length result }
{
    [0; INPUT_BYTES]
}

// Room for a first line of 69 bytes and 8,240 words of 11.
const OUTPUT_BYTES: usize = 90709;

// The text that answers an input.
fn answer(input: &[u8], out: &mut [u8]) -> usize
    requires { 90709 ≤ length out.old }
    ensures prefix_len { IsPrefixLen result out.new }
    ensures input_value { bench input.now ≡ ok (take result out.new) }
{
    let mut items = [0u32; ITEM_WORDS];
    let mut answers = [0u32; ANSWER_WORDS];
    let mut list = [0u32; MISSING_WORDS]; // which is not printed
    let form = bench_input::form_part(input);
    let sheet = bench_input::sheet_part(input);
    let ran = run::run(form, sheet, &mut items, &mut answers, &mut list);
    let end = output::first_line(out, ran.number, ran.place, ran.tries, ran.words);
    let count = ran.words as usize;
    output::append_words(out, end, &answers[..count])
}

// Reads to the start of `buffer` until it is full or the input ends, and answers how many bytes were read. The library has no such
// method that tells of an error: `read_exact` gives no count, `read_to_end` wants a heap, and `io::read_full` takes an error for the end.
fn read_full(input: &mut impl Read, buffer: &mut [u8]) -> Result<usize>
    ensures { ReadsAtMost result buffer.new }
{
    let mut done = 0;
    for _ in 0..u64::MAX {
        if buffer.len() <= done {
            break;
        }
        match input.read(&mut buffer[done..]) {
            Ok(0) => break,
            Ok(count) => done += count,
            Err(error) if error.kind() == ErrorKind::Interrupted => {}
            Err(error) => return Err(error),
        }
    }
    Ok(done)
}

fn main(rt: HostRuntime) -> Result<()> {
    let mut input = input_buffer();
    let n = read_full(&mut rt.stdin(), &mut input)?;
    let mut out = [0; OUTPUT_BYTES];
    let end = answer(&input[..n], &mut out);
    rt.write_all(&out[..end])
}
