// The run cases of the program `import`. The input has them one after another: a heading, a byte 01, the input of the
// case, a byte 00. Each goes to crates/import_text in chunks of one byte, the smallest there are, and what it comes to
// is written under the heading.
#![tactic(auto)]

ghost use Rattle.std.specs.Prelude.{length, ◌≡◌};

use import_text::Gathered;
use std::io;
use std::io::{Read, Write};

// What is kept of a case.
fn store() -> [u8; import_text::KEPT]
    ensures { 93627 ≡ length result }
{
    [0; import_text::KEPT]
}

// Room for every text.
fn room() -> [u8; import_text::ROOM]
    ensures { 158400 ≡ length result }
{
    [0; import_text::ROOM]
}

// What a case comes to that ends.
fn end_case(writer: &mut impl Write, len: usize, kept: &[u8]) -> io::Result<()> {
    let mut out = room();
    let Some(bytes) = kept.get(..len) else {
        return Ok(());
    };
    let printed = import_text::answer(bytes, &mut out);
    writer.write_all(&out[..printed.written])
}

// A byte of the input: 01 ends a heading, 00 ends a case; any other of a heading is written as it is, of a case it is
// kept. A case is there where the reading stands in one, and not in a heading.
fn take_byte(
    writer: &mut impl Write,
    case: Option<Gathered>,
    byte: u8,
    kept: &mut [u8],
) -> io::Result<Option<Gathered>> {
    match (byte, case) {
        (1, _) => {
            writer.write_all(b"\n")?;
            Ok(Some(import_text::start()))
        }
        (0, _) => {
            end_case(writer, case.unwrap_or(import_text::start()).len, kept)?;
            Ok(None)
        }
        (_, Some(state)) => Ok(Some(import_text::gather(state, &[byte], kept))),
        (_, None) => {
            writer.write_all(&[byte])?;
            Ok(None)
        }
    }
}

// (A program lends another no module, so ledger_cases has this loop too. A reader says nothing of how often it can be
// read: so reads are counted.)
fn main(rt: HostRuntime) -> io::Result<()> {
    let mut input = [0u8; 4096];
    let mut kept = store();
    let mut writer = rt.stdout();
    let mut case = None;
    for _ in 0..1_000_000 {
        let n = rt.stdin().read(&mut input)?;
        if n == 0 {
            break;
        }
        for byte in &input[..n] {
            case = take_byte(&mut writer, case, *byte, &mut kept)?;
        }
    }
    Ok(())
}
