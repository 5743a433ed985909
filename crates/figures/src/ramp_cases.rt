// The transfer ramp.
use std::io;
use units::{Kilowatts, limits};

const MODULUS: u64 = 4_294_967_296;

// Document 000, table 2.
pub(crate) fn table(rt: &impl Print) -> io::Result<()> {
    println!(rt; "document 000, table 2: the ramp second by second")?;
    let mut run = [0i64; limits::QUARTER];
    case(rt, "case 1", 0, 5_000, &mut run)?;
    case(rt, "case 2", 0, -8_000, &mut run)?;
    case(rt, "case 3", 20_000, 10_000, &mut run)?;
    case(rt, "no change", 20_000, 20_000, &mut run)
}

pub(crate) fn refused(rt: &impl Print) -> io::Result<()> {
    println!(rt; "ramps at and past the limits")?;
    let mut run = [7i64; limits::QUARTER];
    targets(rt, &mut run)?;
    let mut short = [7i64; 899];
    fill(rt, "899 places", 0, 5_000, &mut short)?;
    fill(rt, "899 places and a target above", 0, 100_001, &mut short)?;
    let mut long = [7i64; 901];
    fill(rt, "901 places", 0, 5_000, &mut long)
}

fn case(rt: &impl Print, label: &str, last: i64, target: i64, run: &mut [i64]) -> io::Result<()> {
    fill(rt, label, last, target, run)?;
    rows(rt, run)
}

// A call's refusal, then a check sum of the run that it leaves.
fn fill(rt: &impl Print, label: &str, last: i64, target: i64, run: &mut [i64]) -> io::Result<()> {
    let refusal = match ramp::ramp(Kilowatts(last), Kilowatts(target), run) {
        Ok(()) => 0,
        Err(refusal) => refusal.number(),
    };
    println!(rt; "{label} {refusal} {}", check_sum(run))
}

fn check_sum(run: &[i64]) -> u64 {
    run.iter().fold(
        0,
        |sum, x| mixed(mixed(sum, u64::from(*x < 0)), x.unsigned_abs()),
    )
}

// The sum with one number more; the order of the numbers counts.
fn mixed(sum: u64, number: u64) -> u64 {
    (sum % MODULUS * 31 + number % MODULUS) % MODULUS
}

// Every second that table 2 prints.
fn rows(rt: &impl Print, run: &[i64]) -> io::Result<()> {
    show(rt, run, 0)?;
    show(rt, run, 1)?;
    show(rt, run, 2)?;
    show(rt, run, 3)?;
    show(rt, run, 4)?;
    show(rt, run, 5)?;
    show(rt, run, 6)?;
    show(rt, run, 7)?;
    show(rt, run, 8)?;
    show(rt, run, 9)?;
    show(rt, run, 297)?;
    show(rt, run, 298)?;
    show(rt, run, 299)?;
    show(rt, run, 300)?;
    show(rt, run, 899)
}

// The second that comes after so many, and its transfer.
fn show(rt: &impl Print, run: &[i64], passed: u16) -> io::Result<()> {
    if let Some(power) = run.get(usize::from(passed)) {
        println!(rt; "second {} {power}", u32::from(passed) + 1)?;
    }
    Ok(())
}

// A run of 900 after every target at and past its limit.
fn targets(rt: &impl Print, run: &mut [i64]) -> io::Result<()> {
    fill(rt, "limits", -100_000, 100_000, run)?;
    fill(rt, "limits", 100_000, -100_000, run)?;
    fill(rt, "last above", 100_001, 0, run)?;
    fill(rt, "last below", -100_001, 0, run)?;
    fill(rt, "target above", 0, 100_001, run)?;
    fill(rt, "target below", 0, -100_001, run)?;
    fill(rt, "i64", i64::MIN, i64::MAX, run)
}
