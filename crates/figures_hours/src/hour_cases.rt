// Whole hours of made-up readings.
use crate::readings;
use crate::readings::Rule;
use hour::{Settlement, Shift, Terms};
use std::io;
use units::{Kilowatts, Millihertz, limits};

// 10 MW at 430 and 350 dollars.
pub(crate) fn terms() -> Terms {
    Terms {
        capacity: Kilowatts(10_000),
        clearing: 43_000,
        performance: 35_000,
    }
}

// Energy at 2,000 and 500 dollars.
pub(crate) fn shift_of(targets: [i64; 5]) -> Shift {
    Shift {
        discharge: 200_000,
        charge: 50_000,
        targets,
    }
}

// Every field of a settlement.
pub(crate) fn settlement(rt: &impl Print, label: &str, s: Settlement) -> io::Result<()> {
    print!(rt;
        "{label} {} {} {} {}",
        s.refusal, s.rate, s.factor, s.capacity.0
    )?;
    print!(rt;
        " {} {} {} {}",
        s.performance.0, s.quality.0, s.energy.0, s.amount.0
    )
}

pub(crate) fn dreg_hours(rt: &impl Print) -> io::Result<()> {
    println!(rt; "dReg hours")?;
    stumbles(rt)?;
    ties(rt)?;
    limits(rt)
}

pub(crate) fn shift_hours(rt: &impl Print) -> io::Result<()> {
    println!(rt; "E-dReg hours")?;
    shifts(rt)?;
    extremes(rt)
}

fn stumbles(rt: &impl Print) -> io::Result<()> {
    level(rt, "steady", 3_500, 59_900)?;
    stumble(rt, "a stumble of three seconds", 1_000, 1_003)?;
    stumble(rt, "a stumble of four", 1_000, 1_004)?;
    stumble(rt, "four first", 0, 4)?;
    stumble(rt, "four last", 3_596, 3_600)?;
    late(rt, "in its place", 1_000)?;
    late(rt, "a second late", 1_001)?;
    alternate(rt, "alternating", 10_000, -10_000)?;
    alternate(rt, "alternating, a second late", -10_000, 10_000)
}

// An hour at one power and one frequency.
fn level(rt: &impl Print, label: &str, power: i64, frequency: i64) -> io::Result<()> {
    let powers = [power; limits::SECONDS];
    let frequencies = [frequency; limits::SECONDS];
    dreg(rt, label, &powers, &frequencies)
}

fn dreg(rt: &impl Print, label: &str, powers: &[i64], frequencies: &[i64]) -> io::Result<()> {
    let none = [0u8; 0];
    dreg_after(rt, label, powers, frequencies, terms(), &none)
}

// The hour after one that ended in these scores.
pub(crate) fn dreg_after(
    rt: &impl Print,
    label: &str,
    powers: &[i64],
    frequencies: &[i64],
    terms: Terms,
    earlier: &[u8],
) -> io::Result<()> {
    let mut scores = [7u8; limits::SECONDS];
    dreg_work(
        rt,
        label,
        powers,
        frequencies,
        terms,
        limits::NOMINAL,
        earlier,
        &mut scores,
    )
}

// An hour on list S: its settlement, then a check sum of the run that it leaves.
pub(crate) fn dreg_work(
    rt: &impl Print,
    label: &str,
    powers: &[i64],
    frequencies: &[i64],
    terms: Terms,
    reference: i64,
    earlier: &[u8],
    scores: &mut [u8],
) -> io::Result<()> {
    let thresholds = [95i64, 94, 93, 92, 91, 70, 0];
    let factors = [10i64, 8, 6, 4, 2, 0, -10];
    let s = hour::dreg_hour(
        powers,
        frequencies,
        terms,
        Millihertz(reference),
        &thresholds,
        &factors,
        earlier,
        scores,
    );
    settlement(rt, label, s)?;
    println!(rt; " {}", readings::score_sum(scores))
}

// A steady hour but for a stretch at another power.
fn stumble(rt: &impl Print, label: &str, from: usize, to: usize) -> io::Result<()> {
    let mut powers = [3_500i64; limits::SECONDS];
    let frequencies = [59_900i64; limits::SECONDS];
    readings::stretch(&mut powers, from, to, 4_500);
    dreg(rt, label, &powers, &frequencies)
}

// The frequency falls, and the power of the second after each reading is judged by it.
fn late(rt: &impl Print, label: &str, from: usize) -> io::Result<()> {
    let mut powers = [0i64; limits::SECONDS];
    let mut frequencies = [60_000i64; limits::SECONDS];
    readings::stretch(&mut frequencies, from, 1_004, 59_750);
    readings::stretch(&mut powers, 1_000, 1_004, 10_000);
    dreg(rt, label, &powers, &frequencies)
}

// Frequency and power change every second: a power that is judged by another second's frequency scores 0.
fn alternate(rt: &impl Print, label: &str, even: i64, odd: i64) -> io::Result<()> {
    let mut powers = [0i64; limits::SECONDS];
    let mut frequencies = [0i64; limits::SECONDS];
    readings::fill(
        &mut frequencies,
        0,
        limits::SECONDS,
        Rule::Turns(59_750, 60_250),
    );
    readings::fill(&mut powers, 0, limits::SECONDS, Rule::Turns(even, odd));
    dreg(rt, label, &powers, &frequencies)
}

// The curve's ties: 31 and 22 percent at 59,920, -22 and -31 percent at 60,080.
fn ties(rt: &impl Print) -> io::Result<()> {
    level(rt, "tie 59,920 above", 3_100, 59_920)?;
    level(rt, "tie 59,920 past", 3_200, 59_920)?;
    level(rt, "tie 59,920 below", 2_100, 59_920)?;
    level(rt, "tie 60,080 above", -2_200, 60_080)?;
    level(rt, "tie 60,080 past", -2_100, 60_080)?;
    level(rt, "tie 60,080 below", -3_200, 60_080)
}

fn limits(rt: &impl Print) -> io::Result<()> {
    level(rt, "most power", 200_000, 55_000)?;
    level(rt, "least power", -200_000, 65_000)?;
    level(rt, "a power above", 200_001, 60_000)?;
    level(rt, "a power below", -200_001, 60_000)?;
    level(rt, "a frequency below", 0, 54_999)
}

fn shifts(rt: &impl Print) -> io::Result<()> {
    let charging = [0, -3_000, -4_000, -2_001, -5_000];
    let discharging = [-3_000, 3_000, 4_000, 2_001, 5_000];
    let both = [100, 4_000, -4_000, 0, 7];
    let none = [0, 0, 0, 0, 0];
    follow(rt, "charging", charging, charging)?;
    follow(rt, "discharging", discharging, discharging)?;
    follow(rt, "both", both, both)?;
    follow(rt, "another plan", charging, both)?;
    follow(rt, "no plan", both, none)?;
    waver(rt, "wavering", discharging, discharging)?;
    waver(rt, "wavering, another plan", both, discharging)
}

// Powers that follow some targets while others are scheduled, at a steady frequency and over the whole curve.
fn follow(rt: &impl Print, label: &str, followed: [i64; 5], planned: [i64; 5]) -> io::Result<()> {
    let mut powers = [0i64; limits::SECONDS];
    let frequencies = [60_000i64; limits::SECONDS];
    readings::follow(&mut powers, &followed);
    shift(rt, label, &powers, &frequencies, terms(), shift_of(planned))
}

fn shift(
    rt: &impl Print,
    label: &str,
    powers: &[i64],
    frequencies: &[i64],
    terms: Terms,
    shift: Shift,
) -> io::Result<()> {
    let none = [0u8; 0];
    shift_after(rt, label, powers, frequencies, terms, shift, &none)
}

pub(crate) fn shift_after(
    rt: &impl Print,
    label: &str,
    powers: &[i64],
    frequencies: &[i64],
    terms: Terms,
    shift: Shift,
    earlier: &[u8],
) -> io::Result<()> {
    let mut scores = [7u8; limits::SECONDS];
    work(
        rt,
        label,
        powers,
        frequencies,
        terms,
        limits::NOMINAL,
        shift,
        earlier,
        &mut scores,
    )
}

// The same for E-dReg.
pub(crate) fn work(
    rt: &impl Print,
    label: &str,
    powers: &[i64],
    frequencies: &[i64],
    terms: Terms,
    reference: i64,
    shift: Shift,
    earlier: &[u8],
    scores: &mut [u8],
) -> io::Result<()> {
    let thresholds = [95i64, 94, 93, 92, 91, 70, 0];
    let factors = [10i64, 8, 6, 4, 2, 0, -10];
    let s = hour::hour(
        powers,
        frequencies,
        terms,
        Millihertz(reference),
        shift,
        &thresholds,
        &factors,
        earlier,
        scores,
    );
    settlement(rt, label, s)?;
    println!(rt; " {}", readings::score_sum(scores))
}

fn waver(rt: &impl Print, label: &str, followed: [i64; 5], planned: [i64; 5]) -> io::Result<()> {
    let mut powers = [0i64; limits::SECONDS];
    let mut frequencies = [0i64; limits::SECONDS];
    readings::follow(&mut powers, &followed);
    readings::fill(&mut frequencies, 0, limits::SECONDS, Rule::Waver(59_700));
    shift(rt, label, &powers, &frequencies, terms(), shift_of(planned))
}

fn extremes(rt: &impl Print) -> io::Result<()> {
    extreme(rt, "most", 200_000, 55_000, 100_000)?;
    extreme(rt, "most, the other way", 200_000, 55_000, -100_000)?;
    extreme(rt, "least", -200_000, 65_000, -100_000)?;
    extreme(rt, "least, the other way", -200_000, 65_000, 100_000)
}

fn extreme(
    rt: &impl Print,
    label: &str,
    power: i64,
    frequency: i64,
    target: i64,
) -> io::Result<()> {
    let powers = [power; limits::SECONDS];
    let frequencies = [frequency; limits::SECONDS];
    shift(rt, label, &powers, &frequencies, most(), most_shift(target))
}

// Capacity and prices at their limits, and one target throughout.
fn most() -> Terms {
    Terms {
        capacity: Kilowatts(100_000),
        clearing: 10_000_000,
        performance: 10_000_000,
    }
}

fn most_shift(target: i64) -> Shift {
    Shift {
        discharge: 10_000_000,
        charge: 10_000_000,
        targets: [target, target, target, target, target],
    }
}
