// Lines are made, read, and written.
ghost use Rattle.std.specs.Prelude.{◌≡◌, length};

use crate::{chance, lines};

pub const LINES: u64 = 1_024;

// Writes entries by chance.
pub(crate) fn write(calls: u64) -> u64 {
    let mut line = [b'0'; 24];
    let mut x = 1;
    let mut sum = 0;
    for i in 0..calls {
        x = chance::next(x);
        let refusal = match frame::write_frame(lines::entry(x), &mut line) {
            Ok(()) => 0,
            Err(refusal) => refusal.number(),
        };
        sum = lines::with_line(sum, refusal, &line, i);
    }
    sum
}

// Makes the lines and reads them.
pub(crate) fn read_over(calls: u64) -> u64 {
    let mut lines = room();
    make_lines(&mut lines);
    read(&lines, calls)
}

// Room for 1,024 lines of 24 digits.
fn room() -> [u8; 24576]
    ensures { 24576 ≡ length result }
{
    [b'0'; 24576]
}

// Lines by chance, one after the other.
fn make_lines(lines: &mut [u8]) {
    let mut x = 1;
    let mut at = 0;
    for _ in 0..LINES {
        x = chance::next(x);
        let line = lines::line(x);
        at = text::put(lines, at, &line);
    }
}

// Reads the lines in order, over and over.
fn read(lines: &[u8], calls: u64) -> u64
    requires { length lines.now ≡ 24576 }
{
    let mut sum = 0;
    for i in 0..calls {
        let at = (i % LINES * 24) as usize;
        let end = at + 24;
        sum = lines::with_reading(sum, frame::read_frame(&lines[at..end]));
    }
    sum
}
