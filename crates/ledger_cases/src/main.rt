// The run cases of the program `ledger`. The input has them one after another: a heading, a byte 01, the input of the
// case, a byte 00. Each goes to crates/intake in chunks of one byte, the smallest there are, and its transcript is
// written under the heading.
#![tactic(auto)]

use intake::Progress;
use std::io;
use std::io::{Read, Write};
use units::limits;

// The total of a case that ends.
fn end_case(
    writer: &mut impl Write,
    state: Progress,
    marks: &mut [bool],
    amounts: &mut [i64],
    out: &mut [u8],
) -> io::Result<()> {
    let finished = intake::finish(state, marks, amounts, out);
    writer.write_all(&out[..finished.written])
}

// A byte of a case.
fn feed(
    writer: &mut impl Write,
    state: Progress,
    byte: u8,
    marks: &mut [bool],
    amounts: &mut [i64],
    out: &mut [u8],
) -> io::Result<Progress> {
    let fed = intake::feed(state, &[byte], marks, amounts, out);
    writer.write_all(&out[..fed.written])?;
    Ok(fed.state)
}

// A byte of the input: 01 ends a heading, 00 ends a case; any other of a heading is written as it is, of a case it is
// fed. A case is there where the reading stands in one, and not in a heading.
fn take_byte(
    writer: &mut impl Write,
    case: Option<Progress>,
    byte: u8,
    marks: &mut [bool],
    amounts: &mut [i64],
    out: &mut [u8],
) -> io::Result<Option<Progress>> {
    match (byte, case) {
        (1, _) => {
            writer.write_all(b"\n")?;
            Ok(Some(intake::start()))
        }
        (0, _) => {
            end_case(writer, case.unwrap_or(intake::start()), marks, amounts, out)?;
            Ok(None)
        }
        (_, Some(state)) => Ok(Some(feed(writer, state, byte, marks, amounts, out)?)),
        (_, None) => {
            writer.write_all(&[byte])?;
            Ok(None)
        }
    }
}

// (A program lends another no module, so import_cases has this loop too. A reader says nothing of how often it can be
// read: so reads are counted.)
fn main(rt: HostRuntime) -> io::Result<()> {
    let mut marks = [false; limits::PLACES];
    let mut amounts = [0i64; limits::PLACES];
    let mut input = [0u8; 4096];
    let mut out = [0u8; 64];
    let mut writer = rt.stdout();
    let mut case = None;
    for _ in 0..1_000_000 {
        let n = rt.stdin().read(&mut input)?;
        if n == 0 {
            break;
        }
        for byte in &input[..n] {
            case = take_byte(&mut writer, case, *byte, &mut marks, &mut amounts, &mut out)?;
        }
    }
    Ok(())
}
