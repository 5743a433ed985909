// The program `desk`: reads, feeds what it read to crates/replies, writes what that answers, and stops.
#![tactic(auto)]

ghost use Rattle.std.specs.Prelude.{length, ◌≡◌};

use asked::State;
use std::io;
use std::io::{Read, Write};
use std::process::ExitCode;

// The numbers of a question.
fn numbers() -> [i64; 8192]
    ensures { 8192 ≡ length result }
{
    [0; 8192]
}

// The longest line of an answer.
fn room() -> [u8; 32768]
    ensures { 32768 ≡ length result }
{
    [0; 32768]
}

// Answers the questions that end in a chunk, one call after another on what is left of it. (That a call takes some of
// the chunk is no part of its contract, so the calls are counted.)
fn answer_all(
    writer: &mut impl Write,
    start: State,
    chunk: &[u8],
    numbers: &mut [i64],
    out: &mut [u8],
) -> io::Result<State> {
    let mut state = start;
    let mut left = chunk;
    for _ in 0..u64::MAX {
        if left.is_empty() {
            break;
        }
        let fed = replies::feed(state, left, numbers, out);
        writer.write_all(&out[..fed.written])?;
        state = fed.state;
        left = &left[fed.taken..];
    }
    Ok(state)
}

// The input's end, and what it answers.
fn close(
    writer: &mut impl Write,
    state: State,
    numbers: &mut [i64],
    out: &mut [u8],
) -> io::Result<()> {
    let finished = replies::finish(state, numbers, out);
    writer.write_all(&out[..finished.written])
}

// Reads to the input's end. (A loop is proved to end, and a reader says nothing of how often it can be read: so reads
// are counted.)
fn run(reader: &mut impl Read, writer: &mut impl Write) -> io::Result<()> {
    let mut numbers = numbers();
    let mut input = [0u8; 65536];
    let mut out = room();
    let mut state = asked::start();
    for _ in 0..u64::MAX {
        let n = reader.read(&mut input)?;
        state = answer_all(writer, state, &input[..n], &mut numbers, &mut out)?;
        if n == 0 {
            break;
        }
    }
    close(writer, state, &mut numbers, &mut out)
}

// A read or a write that failed leaves the output without the answers that were to come.
fn say_failed(rt: &impl Eprint) {
    let _ = rt.eprintln("desk: a read or a write failed, so answers are missing");
}

fn main(rt: HostRuntime) -> ExitCode {
    match run(&mut rt.stdin(), &mut rt.stdout()) {
        Ok(()) => ExitCode::SUCCESS,
        Err(_) => {
            say_failed(&rt);
            ExitCode::FAILURE
        }
    }
}
