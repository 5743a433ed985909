// Hours with faults: which refusal comes first.
use crate::{hour_cases, readings};
use hour::{Shift, Terms};
use std::io;
use units::{Kilowatts, Millihertz, limits};

pub(crate) fn hours(rt: &impl Print) -> io::Result<()> {
    println!(rt; "refused hours by 60,000: 1, 2, 3, 5, 10, 4 in this order")?;
    let mut powers = [0i64; limits::SECONDS];
    let mut frequencies = [0i64; limits::SECONDS];
    faults(rt, &mut powers, &mut frequencies)
}

fn faults(rt: &impl Print, powers: &mut [i64], frequencies: &mut [i64]) -> io::Result<()> {
    readings::stretch(frequencies, 0, limits::SECONDS, 60_000);
    at_the_limits(rt, powers, frequencies)?;
    single(rt, powers, frequencies)?;
    single_in_bands_and_targets(rt, powers, frequencies)?;
    short_scores(rt, powers, frequencies)?;
    readings::stretch(powers, limits::SECONDS - 1, limits::SECONDS, 200_001);
    several(rt, powers, frequencies)?;
    lengths(rt, powers, frequencies)
}

// Nothing is refused.
fn at_the_limits(rt: &impl Print, powers: &[i64], frequencies: &[i64]) -> io::Result<()> {
    attempt(rt, "none", powers, frequencies, 10_000, 50_000, 10, 0)?;
    attempt(
        rt,
        "at the limits",
        powers,
        frequencies,
        100_000,
        10_000_000,
        -240,
        -100_000,
    )?;
    attempt(
        rt,
        "least factor",
        powers,
        frequencies,
        10_000,
        50_000,
        -240,
        0,
    )?;
    attempt(rt, "least capacity", powers, frequencies, 1, 0, 10, 100_000)
}

// An hour of 7 in each place of the lent run, with the capacity, charge price, factor and last target as given.
fn attempt(
    rt: &impl Print,
    label: &str,
    powers: &[i64],
    frequencies: &[i64],
    capacity: i64,
    charge: i64,
    factor: i64,
    target: i64,
) -> io::Result<()> {
    let mut scores = [7u8; limits::SECONDS];
    let terms = Terms {
        capacity: Kilowatts(capacity),
        clearing: 43_000,
        performance: 35_000,
    };
    let shift = Shift {
        discharge: 200_000,
        charge,
        targets: [0, 0, 0, 0, target],
    };
    worked(
        rt,
        label,
        powers,
        frequencies,
        terms,
        shift,
        factor,
        &mut scores,
    )
}

// The settlement, then a check sum of the run.
fn worked(
    rt: &impl Print,
    label: &str,
    powers: &[i64],
    frequencies: &[i64],
    terms: Terms,
    shift: Shift,
    factor: i64,
    scores: &mut [u8],
) -> io::Result<()> {
    let thresholds = [95i64, 0];
    let factors = [factor, -10];
    let none = [0u8; 0];
    let s = hour::hour(
        powers,
        frequencies,
        terms,
        Millihertz(limits::NOMINAL),
        shift,
        &thresholds,
        &factors,
        &none,
        scores,
    );
    hour_cases::settlement(rt, label, s)?;
    println!(rt; " {}", readings::score_sum(scores))
}

// One fault at a time, in the capacity and the prices; then in the bands and the targets.
fn single(rt: &impl Print, powers: &[i64], frequencies: &[i64]) -> io::Result<()> {
    attempt(rt, "capacity 0", powers, frequencies, 0, 50_000, 10, 0)?;
    attempt(
        rt,
        "capacity above",
        powers,
        frequencies,
        100_001,
        50_000,
        10,
        0,
    )?;
    attempt(
        rt,
        "price above",
        powers,
        frequencies,
        10_000,
        10_000_001,
        10,
        0,
    )?;
    attempt(rt, "price below", powers, frequencies, 10_000, -1, 10, 0)
}

fn single_in_bands_and_targets(
    rt: &impl Print,
    powers: &[i64],
    frequencies: &[i64],
) -> io::Result<()> {
    attempt(rt, "factor 11", powers, frequencies, 10_000, 50_000, 11, 0)?;
    attempt(
        rt,
        "target above",
        powers,
        frequencies,
        10_000,
        50_000,
        10,
        100_001,
    )?;
    attempt(
        rt,
        "target below",
        powers,
        frequencies,
        10_000,
        50_000,
        10,
        -100_001,
    )
}

fn short_scores(rt: &impl Print, powers: &[i64], frequencies: &[i64]) -> io::Result<()> {
    let mut scores = [7u8; 3599];
    let shift = hour_cases::shift_of([0, 0, 0, 0, 0]);
    worked(
        rt,
        "3,599 scores",
        powers,
        frequencies,
        hour_cases::terms(),
        shift,
        10,
        &mut scores,
    )
}

// A last power that is past its limit, and one fault more each time.
fn several(rt: &impl Print, powers: &[i64], frequencies: &[i64]) -> io::Result<()> {
    attempt(
        rt,
        "a power above",
        powers,
        frequencies,
        10_000,
        50_000,
        10,
        0,
    )?;
    attempt(
        rt,
        "and a target",
        powers,
        frequencies,
        10_000,
        50_000,
        10,
        100_001,
    )?;
    attempt(
        rt,
        "and a factor",
        powers,
        frequencies,
        10_000,
        50_000,
        11,
        100_001,
    )?;
    attempt(
        rt,
        "and a price",
        powers,
        frequencies,
        10_000,
        -1,
        11,
        100_001,
    )?;
    attempt(
        rt,
        "and the capacity",
        powers,
        frequencies,
        0,
        -1,
        11,
        100_001,
    )?;
    attempt(
        rt,
        "i64",
        powers,
        frequencies,
        i64::MIN,
        i64::MAX,
        i64::MIN,
        i64::MAX,
    )
}

// Runs of another length, with every fault.
fn lengths(rt: &impl Print, powers: &[i64], frequencies: &[i64]) -> io::Result<()> {
    let short = [200_001i64; 3599];
    attempt(rt, "3,599 powers", &short, frequencies, 0, -1, 11, 100_001)?;
    attempt(rt, "3,599 frequencies", powers, &short, 0, -1, 11, 100_001)?;
    attempt(rt, "neither", &short, &short, 10_000, 50_000, 10, 0)
}
