// A second's score and an hour's rate.
use std::io;
use units::{Kilowatts, Millihertz, limits};

// Document 001, example 2, and halves of a percent on either side.
pub(crate) fn seconds(rt: &impl Print) -> io::Result<()> {
    println!(rt; "document 001, example 2: a second's score")?;
    show(rt, 4_300, 0, 10_000, 59_900)?;
    show(rt, 3_500, 0, 10_000, 59_900)?;
    show(rt, 3_849, 0, 10_000, 59_900)?;
    show(rt, 3_850, 0, 10_000, 59_900)?;
    show(rt, 3_150, 0, 10_000, 59_900)?;
    show(rt, 3_149, 0, 10_000, 59_900)?;
    show(rt, -3_150, 0, 10_000, 60_080)?;
    show(rt, -3_149, 0, 10_000, 60_080)?;
    show(rt, 7_300, 3_000, 10_000, 59_900)?;
    show(rt, 500, -3_000, 10_000, 59_900)?;
    show(rt, 13_800, 0, 10_000, 59_900)?;
    show(rt, 13_700, 0, 10_000, 59_900)?;
    show(rt, -200_000, 100_000, 1, 59_750)
}

pub(crate) fn limits(rt: &impl Print) -> io::Result<()> {
    println!(rt; "scores at and past the limits")?;
    show(rt, 200_000, 100_000, 100_000, 55_000)?;
    show(rt, -200_000, -100_000, 1, 65_000)?;
    show(rt, 0, 0, 0, 60_000)?;
    show(rt, 0, 0, 100_001, 60_000)?;
    show(rt, 0, 100_001, 1, 60_000)?;
    show(rt, 0, -100_001, 1, 60_000)?;
    show(rt, 200_001, 0, 1, 60_000)?;
    show(rt, -200_001, 0, 1, 60_000)?;
    show(rt, 0, 0, 1, 54_999)?;
    show(rt, 0, 0, 1, 65_001)?;
    show(rt, 200_001, 100_001, 0, 54_999)?;
    show(rt, 200_001, 100_001, 1, 54_999)?;
    show(rt, 200_001, 100_000, 1, 54_999)?;
    show(rt, i64::MIN, i64::MIN, i64::MIN, i64::MIN)?;
    show(rt, i64::MAX, i64::MAX, 1, i64::MAX)?;
    show(rt, i64::MIN, 0, 1, 60_000)?;
    show(rt, 0, 0, 1, i64::MAX)
}

// Example 2, moved by 300 and by -500; and references at and past the limits.
pub(crate) fn moved(rt: &impl Print) -> io::Result<()> {
    println!(rt; "document 02, #107: example 2 by a moved reference")?;
    around(rt, 4_300, 0, 10_000, 60_200, 60_300)?;
    around(rt, 3_500, 0, 10_000, 60_200, 60_300)?;
    around(rt, 4_300, 0, 10_000, 59_400, 59_500)?;
    around(rt, 3_500, 0, 10_000, 59_400, 59_500)?;
    around(rt, 4_300, 0, 10_000, 59_900, 60_300)?;
    around(rt, 4_300, 0, 10_000, 60_400, 60_500)?;
    refused_references(rt)
}

pub(crate) fn rates(rt: &impl Print) -> io::Result<()> {
    println!(rt; "document 001, table 2: rolling rates and the hourly rate")?;
    table_2(rt)?;
    stumbles(rt)?;
    lengths(rt)
}

// Zeros in the first seconds: the earlier scores decide.
pub(crate) fn earlier_rates(rt: &impl Print) -> io::Result<()> {
    println!(rt; "document 02, #102: the three seconds before the hour")?;
    zeros(rt, "100 100 100, a zero", &[100, 100, 100], 1)?;
    zeros(rt, "90 0 0, a zero", &[90, 0, 0], 1)?;
    zeros(rt, "90 0 0, two zeros", &[90, 0, 0], 2)?;
    zeros(rt, "0 90 0, two zeros", &[0, 90, 0], 2)?;
    zeros(rt, "0 90 0, three zeros", &[0, 90, 0], 3)?;
    zeros(rt, "0 0 90, three zeros", &[0, 0, 90], 3)?;
    zeros(rt, "0 0 90, four zeros", &[0, 0, 90], 4)?;
    zeros(rt, "0 0 0, no zero", &[0, 0, 0], 0)?;
    refused_earlier(rt)
}

// Power, transfer, capacity and frequency, then refusal and score.
fn show(
    rt: &impl Print,
    power: i64,
    transfer: i64,
    capacity: i64,
    frequency: i64,
) -> io::Result<()> {
    let s = score::second_score(
        Kilowatts(power),
        Kilowatts(transfer),
        Kilowatts(capacity),
        Millihertz(frequency),
        Millihertz(limits::NOMINAL),
    );
    println!(rt;
        "second {power} {transfer} {capacity} {frequency} {} {}",
        s.refusal, s.score
    )
}

// Power, transfer, capacity, frequency and reference, then refusal and score.
fn around(
    rt: &impl Print,
    power: i64,
    transfer: i64,
    capacity: i64,
    frequency: i64,
    reference: i64,
) -> io::Result<()> {
    let s = score::second_score(
        Kilowatts(power),
        Kilowatts(transfer),
        Kilowatts(capacity),
        Millihertz(frequency),
        Millihertz(reference),
    );
    println!(rt;
        "around {power} {transfer} {capacity} {frequency} {reference} {} {}",
        s.refusal, s.score
    )
}

// 2, 19, 10, 4.
fn refused_references(rt: &impl Print) -> io::Result<()> {
    around(rt, 4_300, 0, 10_000, 59_900, 59_499)?;
    around(rt, 4_300, 0, 10_000, 59_900, 60_501)?;
    around(rt, 4_300, 0, 0, 59_900, 60_501)?;
    around(rt, 4_300, 100_001, 10_000, 59_900, 60_501)?;
    around(rt, 200_001, 0, 10_000, 59_900, 60_501)?;
    around(rt, 4_300, 100_001, 10_000, 59_900, 60_500)?;
    around(rt, 0, 0, 1, 60_000, i64::MIN)?;
    around(rt, 0, 0, 1, 60_000, i64::MAX)
}

fn table_2(rt: &impl Print) -> io::Result<()> {
    let mut scores = [0u8; limits::SECONDS];
    let eleven = [100u8, 90, 50, 90, 90, 70, 95, 100, 100, 60, 100];
    repeat(&eleven, &mut scores, 0, limits::SECONDS);
    first_rate(rt, "table 2 over and over", &scores)
}

// Eleven scores over and over, from a place on, up to another or the run's end.
pub(crate) fn repeat(eleven: &[u8; 11], scores: &mut [u8], from: usize, to: usize) {
    for (i, score) in scores.iter_mut().enumerate().take(to).skip(from) {
        *score = eleven[i % 11];
    }
}

// No hour before.
fn first_rate(rt: &impl Print, label: &str, scores: &[u8]) -> io::Result<()> {
    let none = [0u8; 0];
    rate(rt, label, &none, scores)
}

fn rate(rt: &impl Print, label: &str, earlier: &[u8], scores: &[u8]) -> io::Result<()> {
    let r = rate::hourly_rate(earlier, scores);
    println!(rt; "{label} {} {}", r.refusal, r.rate)
}

fn stumbles(rt: &impl Print) -> io::Result<()> {
    stumble(rt, "steady", 0, 0, 0)?;
    stumble(rt, "three zeros", 1_000, 1_003, 0)?;
    stumble(rt, "four zeros", 1_000, 1_004, 0)?;
    stumble(rt, "four at 94", 2_000, 2_004, 94)?;
    stumble(rt, "a zero first", 0, 1, 0)?;
    stumble(rt, "three at 70 last", 3_597, 3_600, 70)?;
    stumble(rt, "four at 70 last", 3_596, 3_600, 70)?;
    stumble(rt, "a score of 101", 3_599, 3_600, 101)?;
    stumble(rt, "a score of 255", 0, 1, 255)
}

// An hour of 100 with one score from a place on, up to another.
fn stumble(rt: &impl Print, label: &str, from: usize, to: usize, score: u8) -> io::Result<()> {
    let none = [0u8; 0];
    stumble_after(rt, label, &none, from, to, score)
}

fn stumble_after(
    rt: &impl Print,
    label: &str,
    earlier: &[u8],
    from: usize,
    to: usize,
    score: u8,
) -> io::Result<()> {
    let mut scores = [100u8; limits::SECONDS];
    repeat(&[score; 11], &mut scores, from, to);
    rate(rt, label, earlier, &scores)
}

fn lengths(rt: &impl Print) -> io::Result<()> {
    let short = [100u8; 3599];
    first_rate(rt, "3,599 scores", &short)?;
    let long = [101u8; 3601];
    first_rate(rt, "3,601 scores of 101", &long)?;
    let none = [0u8; 0];
    first_rate(rt, "no score", &none)
}

// An hour of 100 with so many zeros first.
fn zeros(rt: &impl Print, label: &str, earlier: &[u8], count: usize) -> io::Result<()> {
    stumble_after(rt, label, earlier, 0, count, 0)
}

fn refused_earlier(rt: &impl Print) -> io::Result<()> {
    let short = [100u8; 3599];
    zeros(rt, "one earlier score", &[100], 1)?;
    zeros(rt, "two earlier scores", &[100, 100], 1)?;
    zeros(rt, "four earlier scores", &[100, 100, 100, 100], 1)?;
    zeros(rt, "101 first", &[101, 0, 0], 1)?;
    zeros(rt, "101 last", &[100, 100, 101], 0)?;
    zeros(rt, "two, one of them 101", &[101, 100], 0)?;
    rate(rt, "three, and 3,599 scores", &[100, 100, 100], &short)?;
    stumble_after(
        rt,
        "three, and a score of 101",
        &[100, 100, 100],
        3_599,
        3_600,
        101,
    )?;
    stumble_after(
        rt,
        "two, and a score of 101",
        &[100, 100],
        3_599,
        3_600,
        101,
    )
}
