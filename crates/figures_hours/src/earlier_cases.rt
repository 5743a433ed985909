// Hours after an hour: the first three windows look back into its last three scores.
use crate::{hour_cases, joint_cases, readings};
use hour::Terms;
use month::Month;
use std::io;
use units::{Kilowatts, limits};

pub(crate) fn hours(rt: &impl Print) -> io::Result<()> {
    println!(rt; "document 02, #102: hours after an hour")?;
    each(rt, false)?;
    println!(rt; "E-dReg hours after an hour")?;
    each(rt, true)
}

// Zeros in the first seconds: the earlier scores decide.
fn each(rt: &impl Print, shifting: bool) -> io::Result<()> {
    let none = [0u8; 0];
    zeros(rt, "none, a zero", shifting, &none, 1)?;
    zeros(rt, "100 100 100, a zero", shifting, &[100, 100, 100], 1)?;
    zeros(rt, "90 0 0, a zero", shifting, &[90, 0, 0], 1)?;
    zeros(rt, "90 0 0, two zeros", shifting, &[90, 0, 0], 2)?;
    zeros(rt, "0 0 90, four zeros", shifting, &[0, 0, 90], 4)
}

// An hour that scores 100, but 0 in so many first seconds.
fn zeros(
    rt: &impl Print,
    label: &str,
    shifting: bool,
    earlier: &[u8],
    count: usize,
) -> io::Result<()> {
    let mut powers = [0i64; limits::SECONDS];
    let frequencies = [60_000i64; limits::SECONDS];
    let targets = [-3_000, 3_000, 4_000, 2_001, 5_000];
    let terms = hour_cases::terms();
    if shifting {
        readings::follow(&mut powers, &targets);
        readings::stretch(&mut powers, 0, count, 100_000);
        let shift = hour_cases::shift_of(targets);
        hour_cases::shift_after(rt, label, &powers, &frequencies, terms, shift, earlier)?;
        return Ok(());
    }
    readings::stretch(&mut powers, 0, count, 100_000);
    hour_cases::dreg_after(rt, label, &powers, &frequencies, terms, earlier)
}

pub(crate) fn refused(rt: &impl Print) -> io::Result<()> {
    println!(rt; "refused earlier scores: 1 first, 4 last")?;
    attempt(rt, "two", 10_000, 0, &[100, 100])?;
    attempt(rt, "four", 10_000, 0, &[100, 100, 100, 100])?;
    attempt(
        rt,
        "two, one of them 101, and capacity 0",
        0,
        0,
        &[100, 101],
    )?;
    attempt(rt, "101, and capacity 0", 0, 0, &[101, 100, 100])?;
    attempt(rt, "101", 10_000, 0, &[100, 100, 101])?;
    attempt(
        rt,
        "101, and a power above",
        10_000,
        200_001,
        &[100, 101, 100],
    )
}

// A dReg and an E-dReg hour on this capacity, with this last power.
fn attempt(
    rt: &impl Print,
    label: &str,
    capacity: i64,
    last: i64,
    earlier: &[u8],
) -> io::Result<()> {
    let mut powers = [0i64; limits::SECONDS];
    let frequencies = [60_000i64; limits::SECONDS];
    readings::stretch(&mut powers, limits::SECONDS - 1, limits::SECONDS, last);
    let terms = Terms {
        capacity: Kilowatts(capacity),
        clearing: 43_000,
        performance: 35_000,
    };
    hour_cases::dreg_after(rt, label, &powers, &frequencies, terms, earlier)?;
    let shift = hour_cases::shift_of([0; 5]);
    hour_cases::shift_after(rt, label, &powers, &frequencies, terms, shift, earlier)
}

// An hour that ends in 0, 90, 0, and one that begins with two zeros.
pub(crate) fn in_a_row(rt: &impl Print) -> io::Result<()> {
    println!(rt; "two hours, one after the other")?;
    let none = [0u8; 0];
    let mut powers = [0i64; limits::SECONDS];
    let mut first = [7u8; limits::SECONDS];
    let mut second = [7u8; limits::SECONDS];
    readings::stretch(&mut powers, 3_597, limits::SECONDS, 100_000);
    readings::stretch(&mut powers, 3_598, 3_599, 1_900);
    still(rt, "the first", &powers, &none, &mut first)?;
    readings::stretch(&mut powers, 0, 2, 100_000);
    readings::stretch(&mut powers, 2, limits::SECONDS, 0);
    still(rt, "the second", &powers, &first[3_597..], &mut second)?;
    still(rt, "the second, by itself", &powers, &none, &mut second)
}

// A dReg hour at 60 Hz.
fn still(
    rt: &impl Print,
    label: &str,
    powers: &[i64],
    earlier: &[u8],
    scores: &mut [u8],
) -> io::Result<()> {
    let frequencies = [60_000i64; limits::SECONDS];
    hour_cases::dreg_work(
        rt,
        label,
        powers,
        &frequencies,
        hour_cases::terms(),
        limits::NOMINAL,
        earlier,
        scores,
    )
}

pub(crate) fn joint(rt: &impl Print) -> io::Result<()> {
    println!(rt; "joint calls after an hour")?;
    let mut powers = [0i64; limits::SECONDS];
    readings::stretch(&mut powers, 0, 1, 100_000);
    joins(rt, &powers)
}

// A first second that scores 0.
fn joins(rt: &impl Print, powers: &[i64]) -> io::Result<()> {
    let none = [0u8; 0];
    let m = joint_cases::opened(30);
    let m = join(rt, "none, a zero", powers, &none, m, 10)?;
    let m = join(rt, "100 100 100, a zero", powers, &[100, 100, 100], m, 11)?;
    let m = join(rt, "two", powers, &[100, 100], m, 12)?;
    join(rt, "101, place filled", powers, &[100, 101, 100], m, 10)?;
    Ok(())
}

// On day 3.
fn join(
    rt: &impl Print,
    label: &str,
    powers: &[i64],
    earlier: &[u8],
    m: Month,
    hour: u8,
) -> io::Result<Month> {
    let frequencies = [60_000i64; limits::SECONDS];
    joint_cases::join_after(
        rt,
        label,
        powers,
        &frequencies,
        limits::NOMINAL,
        0,
        earlier,
        m,
        3,
        hour,
    )
}
