// The quality bands.
use std::io;
use units::Refusal;

pub(crate) fn rates(rt: &impl Print) -> io::Result<()> {
    println!(rt; "list S")?;
    show(rt, 100)?;
    show(rt, 96)?;
    show(rt, 95)?;
    show(rt, 94)?;
    show(rt, 93)?;
    show(rt, 92)?;
    show(rt, 91)?;
    show(rt, 90)?;
    show(rt, 70)?;
    show(rt, 69)?;
    show(rt, 0)?;
    show(rt, 101)?;
    show(rt, 255)
}

// Sixteen records pass; none and seventeen do not.
pub(crate) fn lists(rt: &impl Print) -> io::Result<()> {
    println!(rt; "lists at and past the limits")?;
    short_lists(rt)?;
    let falling = [
        97i64, 96, 95, 94, 93, 92, 91, 90, 80, 70, 60, 50, 40, 30, 20, 10, 0,
    ];
    let factors = [10i64, 9, 8, 7, 6, 5, 4, 3, 2, 1, 0, -1, -2, -3, -4, -5, -6];
    list(rt, "seventeen", &falling, &factors)?;
    list(rt, "sixteen", &falling[1..17], &factors[1..17])?;
    list(rt, "none", &falling[0..0], &factors[0..0])?;
    list(rt, "a factor short", &falling[1..17], &factors[1..16])?;
    list(rt, "a threshold short", &falling[2..17], &factors[1..17])
}

fn show(rt: &impl Print, rate: u8) -> io::Result<()> {
    print!(rt; "rate {rate}")?;
    told(rt, list_s(rate))?;
    println!(rt; "")
}

// Document 01's list S.
fn list_s(rate: u8) -> Result<i64, Refusal> {
    let thresholds = [95i64, 94, 93, 92, 91, 70, 0];
    let factors = [10i64, 8, 6, 4, 2, 0, -10];
    bands::factor(&thresholds, &factors, rate)
}

fn short_lists(rt: &impl Print) -> io::Result<()> {
    one(rt, "one record", 0, 10)?;
    one(rt, "least factor", 0, -240)?;
    one(rt, "factor 11", 0, 11)?;
    one(rt, "factor -241", 0, -241)?;
    one(rt, "last not 0", 1, 10)?;
    one(rt, "i64", i64::MIN, i64::MAX)?;
    two(rt, "two records", 100, 0, 10)?;
    two(rt, "threshold 101", 101, 0, 10)?;
    two(rt, "threshold -1", 95, -1, 10)?;
    two(rt, "equal thresholds", 0, 0, 10)?;
    two(rt, "rising thresholds", 0, 95, 10)?;
    two(rt, "factor 11 first", 95, 0, 11)
}

// A list of one record.
fn one(rt: &impl Print, label: &str, threshold: i64, factor: i64) -> io::Result<()> {
    let thresholds = [threshold];
    let factors = [factor];
    list(rt, label, &thresholds, &factors)
}

// A list: its check, then the answers for rates 95 and 101.
fn list(rt: &impl Print, label: &str, thresholds: &[i64], factors: &[i64]) -> io::Result<()> {
    let check = match bands::check(thresholds, factors) {
        Ok(()) => 0,
        Err(refusal) => refusal.number(),
    };
    print!(rt; "{label} {check}")?;
    told(rt, bands::factor(thresholds, factors, 95))?;
    told(rt, bands::factor(thresholds, factors, 101))?;
    println!(rt; "")
}

// Refusal and factor.
fn told(rt: &impl Print, answer: Result<i64, Refusal>) -> io::Result<()> {
    let (refusal, factor) = match answer {
        Ok(factor) => (0, factor),
        Err(refusal) => (refusal.number(), 0),
    };
    print!(rt; " {refusal} {factor}")
}

// A list of two records.
fn two(rt: &impl Print, label: &str, first: i64, second: i64, factor: i64) -> io::Result<()> {
    let thresholds = [first, second];
    let factors = [factor, -10];
    list(rt, label, &thresholds, &factors)
}
