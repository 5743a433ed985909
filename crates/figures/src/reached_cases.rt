// Whether an hour reached a threshold.
use crate::score_cases;
use std::io;
use units::limits;

// An hour of 100 with one score in some seconds, and a threshold.
#[derive(Clone, Copy)]
struct Asked {
    from: usize,
    to: usize,
    score: u8,
    threshold: u8,
}

pub(crate) fn reached(rt: &impl Print) -> io::Result<()> {
    println!(rt; "document 02, #106: did the hour reach 95?")?;
    first(rt, "steady", 0, 0, 0, 95)?;
    first(rt, "three zeros after a second", 1, 4, 0, 95)?;
    first(rt, "four zeros after a second", 1, 5, 0, 95)?;
    first(rt, "zeros, by 0", 0, 3_600, 0, 0)?;
    first(rt, "zeros, by 1", 0, 3_600, 0, 1)?;
    first(rt, "four at 94 last", 3_596, 3_600, 94, 95)?;
    first(rt, "four at 95 last", 3_596, 3_600, 95, 95)?;
    after_an_hour(rt)?;
    refused(rt)
}

fn after_an_hour(rt: &impl Print) -> io::Result<()> {
    after(rt, "95 0 0, a zero", &[95, 0, 0], 1)?;
    after(rt, "95 0 0, two zeros", &[95, 0, 0], 2)?;
    after(rt, "0 0 95, three zeros", &[0, 0, 95], 3)?;
    after(rt, "0 0 95, four zeros", &[0, 0, 95], 4)?;
    after(rt, "94 94 94, a zero", &[94, 94, 94], 1)
}

fn refused(rt: &impl Print) -> io::Result<()> {
    let short = [100u8; 3599];
    after(rt, "two earlier scores", &[100, 100], 0)?;
    after(rt, "101 first", &[101, 0, 0], 0)?;
    verdict(rt, "3,599 scores, by 101", &[101], &short, 101)?;
    first(rt, "a score of 101, by 101", 3_599, 3_600, 101, 101)?;
    first(rt, "by 101", 0, 0, 0, 101)?;
    first(rt, "by 255", 0, 0, 0, 255)
}

// No hour before.
fn first(
    rt: &impl Print,
    label: &str,
    from: usize,
    to: usize,
    score: u8,
    threshold: u8,
) -> io::Result<()> {
    let none = [0u8; 0];
    let asked = Asked {
        from,
        to,
        score,
        threshold,
    };
    ask(rt, label, &none, asked)
}

// So many zeros first, by 95.
fn after(rt: &impl Print, label: &str, earlier: &[u8], zeros: usize) -> io::Result<()> {
    let asked = Asked {
        from: 0,
        to: zeros,
        score: 0,
        threshold: 95,
    };
    ask(rt, label, earlier, asked)
}

fn ask(rt: &impl Print, label: &str, earlier: &[u8], asked: Asked) -> io::Result<()> {
    let mut scores = [100u8; limits::SECONDS];
    score_cases::repeat(&[asked.score; 11], &mut scores, asked.from, asked.to);
    verdict(rt, label, earlier, &scores, asked.threshold)
}

// Refusal, yes (1) or no (0), second, seconds judged, scores read.
fn verdict(
    rt: &impl Print,
    label: &str,
    earlier: &[u8],
    scores: &[u8],
    threshold: u8,
) -> io::Result<()> {
    let v = reached::reached(earlier, scores, threshold);
    println!(rt;
        "{label} {} {} {} {} {}",
        v.refusal,
        u8::from(v.reached),
        v.second,
        v.judged,
        v.read
    )
}
