// What is timed of the question whether an hour reached a threshold: it is asked of one hour of scores over and over,
// with one score drawn anew before each question. The input's first byte says how scores are drawn, its second is the
// threshold, its third, modulo 4, how many earlier scores there are; there are as many questions as it has bytes, up to
// 65,536. Their number and a check sum are printed. The peer is bench/reached.rs.
//
// It is a program of its own, so that the others' code comes to lie where it lay; a program cannot lend another its
// module, so chance.rt is a copy of part of bench's.
#![tactic(auto)]

mod chance;

use reached::Verdict;
use std::io;
use std::io::Read;
use units::limits;

// The scores of the hour before.
const EARLIER: [u8; 4] = [90, 91, 100, 100];

// The last four seconds.
const LATE: usize = limits::SECONDS - 4;

fn main(rt: HostRuntime) -> io::Result<()> {
    let mut input = [0u8; 65536];
    let count = rt.stdin().read(&mut input)? as u64;
    let kind = input[0];
    let threshold = input[1];
    let before = input[2];
    let sum = run(kind, threshold, before, count);
    println!(rt; "asked {count} {sum}")
}

// The sum of every answer.
fn run(kind: u8, threshold: u8, before: u8, count: u64) -> u64 {
    let mut scores = [0; limits::SECONDS];
    draw(&mut scores, kind);
    let n = usize::from(before % 4);
    each(&EARLIER[..n], &mut scores, kind, threshold, count)
}

fn draw(scores: &mut [u8], kind: u8) {
    let mut x = 1;
    for (i, score) in scores.iter_mut().enumerate() {
        x = chance::next(x);
        *score = drawn(kind, i, x);
    }
}

fn each(earlier: &[u8], scores: &mut [u8], kind: u8, threshold: u8, count: u64) -> u64 {
    let mut x = 2;
    let mut sum = 0;
    for n in 0..count {
        x = chance::next(x);
        redraw(scores, kind, (n % limits::SECONDS as u64) as usize, x);
        let answer = reached::reached(earlier, scores, threshold);
        sum = with_answer(sum, answer);
    }
    sum
}

fn redraw(scores: &mut [u8], kind: u8, place: usize, x: u64) {
    if let Some(score) = scores.get_mut(place) {
        *score = drawn(kind, place, x);
    }
}

// The score of a second, drawn by x: 95 to 100 (`0`), 90 to 100 (`1`), 90 to 94 (`2`); in the last two every fourth
// second scores 100, from the first on. Else as for `1`, but for the last four seconds, which are below 95.
fn drawn(kind: u8, place: usize, x: u64) -> u8 {
    if kind == b'0' {
        return (95 + x / 65_536 % 6) as u8;
    }
    let last = (kind != b'1') & (kind != b'2') & (LATE <= place);
    if (place % 4 == 0) & !last {
        return 100;
    }
    if (kind == b'2') | last {
        return (90 + x / 65_536 % 5) as u8;
    }
    (90 + x / 65_536 % 11) as u8
}

fn with_answer(sum: u64, answer: Verdict) -> u64 {
    let refused = chance::mixed(sum, u64::from(answer.refusal));
    let reached = chance::mixed(refused, u64::from(answer.reached));
    let named = chance::mixed(reached, answer.second as u64);
    chance::mixed(
        chance::mixed(named, answer.judged as u64),
        answer.read as u64,
    )
}
