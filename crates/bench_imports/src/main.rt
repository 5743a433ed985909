// What is timed of a logger's hour: it is drawn by chance, then imported over and over. Before each import one line is
// drawn anew, so that no import is the one before. There are as many imports as standard input has bytes, up to 65,536;
// their number and a check sum are printed. The peer is bench/imports.rs.
//
// It is a program of its own: the compiler puts a function in place where it has one caller, as the reader of a line
// has in `import` and in `ledger`. In one program with `bench`, the reader and the writer of a line would have two
// each.
// A program cannot lend another its module, so chance.rt is bench's.
#![tactic(auto)]

mod chance;

use logger::AtLine;
use std::io;
use std::io::Read;
use units::limits;

// The digits of a line, and its end.
const LINE: u64 = 25;

const LINES: u64 = logger::LINES as u64;

fn main(rt: HostRuntime) -> io::Result<()> {
    let mut input = [0u8; 65536];
    let count = rt.stdin().read(&mut input)? as u64;
    let sum = run(count);
    println!(rt; "imported {count} {sum}")
}

// The sum of every answer, and of both runs as the last import leaves them.
fn run(count: u64) -> u64 {
    let mut file = [b'\n'; logger::LINES * 25];
    let mut frequencies = [0; limits::SECONDS];
    let mut powers = [0; limits::SECONDS];
    draw_lines(&mut file);
    let sum = each(&mut file, &mut frequencies, &mut powers, count);
    with_run(with_run(sum, &frequencies), &powers)
}

fn draw_lines(file: &mut [u8]) {
    let mut x = 1;
    for i in 0..LINES {
        x = chance::next(x);
        draw_line(file, i, x);
    }
}

fn each(file: &mut [u8], frequencies: &mut [i64], powers: &mut [i64], count: u64) -> u64 {
    let mut x = 2;
    let mut sum = 0;
    for n in 0..count {
        x = chance::next(x);
        draw_line(file, n % LINES, x);
        let answer = logger::import(file, frequencies, powers);
        sum = with_answer(sum, answer);
    }
    sum
}

// Puts the line of a second at its place.
fn draw_line(file: &mut [u8], second: u64, x: u64) {
    let line = line(second, x);
    let at = (second % LINES * LINE) as usize;
    text::put(file, at, &line);
}

// The line of a second with its end, its pair drawn by x.
fn line(second: u64, x: u64) -> [u8; 25] {
    let mut line = [b'\n'; 25];
    let place = (second % LINES) as u16;
    let _ = pair_frame::write_pair(place, frequency(x), power(x), &mut line[..24]);
    line
}

// The bits of a frequency: 59.75 Hz and less than 0.5 Hz more.
fn frequency(x: u64) -> u32 {
    (0x426F_0000 + x / 32_768 % 131_072) as u32
}

// The bits of a power: 2 to 131,072 kW, taken out or in.
fn power(x: u64) -> u32 {
    let sign = x / 0x8000_0000 % 2;
    let exponent = 128 + x / 0x800_0000 % 16;
    let fraction = x % 0x80_0000;
    ((sign * 256 + exponent) * 0x80_0000 + fraction) as u32
}

fn with_answer(sum: u64, answer: Result<(), AtLine>) -> u64 {
    let (refusal, line) = match answer {
        Ok(()) => (0, 0),
        Err(fault) => (fault.refusal.number(), fault.line),
    };
    chance::mixed(chance::mixed(sum, u64::from(refusal)), line as u64)
}

// The sum with every number of a run.
fn with_run(sum: u64, run: &[i64]) -> u64 {
    run.iter().fold(sum, |m, z| chance::with_number(m, *z))
}
