// The program `ledger`: reads, hands what it read to crates/intake, writes what that answers, and stops.
#![tactic(auto)]

ghost use Rattle.std.specs.Prelude.{length, ◌≡◌};

use intake::Progress;
use std::io;
use std::io::{Read, Write};
use std::process::ExitCode;
use units::limits;

// Twelve bytes of answers for each byte of a read.
fn room() -> [u8; 786432]
    ensures { 786432 ≡ length result }
{
    [0; 786432]
}

// Writes the answer to a last line without its end, and the total.
fn close(
    writer: &mut impl Write,
    state: Progress,
    marks: &mut [bool],
    amounts: &mut [i64],
    out: &mut [u8],
) -> io::Result<()> {
    let finished = intake::finish(state, marks, amounts, out);
    writer.write_all(&out[..finished.written])
}

// Reads to the input's end, and answers the lines that end in each read. No more is read once every line is answered
// that ever will be. (A loop is proved to end, and a reader says nothing of how often it can be read: so reads are
// counted.)
fn run(reader: &mut impl Read, writer: &mut impl Write) -> io::Result<()> {
    let mut marks = [false; limits::PLACES];
    let mut amounts = [0i64; limits::PLACES];
    let mut input = [0u8; 65536];
    let mut out = room();
    let mut state = intake::start();
    for _ in 0..u64::MAX {
        let n = reader.read(&mut input)?;
        let fed = intake::feed(state, &input[..n], &mut marks, &mut amounts, &mut out);
        writer.write_all(&out[..fed.written])?;
        state = fed.state;
        if n == 0 || state.cover.count >= intake::MOST {
            break;
        }
    }
    close(writer, state, &mut marks, &mut amounts, &mut out)
}

// A read or a write that failed leaves the output without its last line, the total.
fn say_failed(rt: &impl Eprint) {
    let _ = rt.eprintln("ledger: a read or a write failed, so there is no total");
}

fn main(rt: HostRuntime) -> ExitCode {
    match run(&mut rt.stdin(), &mut rt.stdout()) {
        Ok(()) => ExitCode::SUCCESS,
        Err(_) => {
            say_failed(&rt);
            ExitCode::FAILURE
        }
    }
}
