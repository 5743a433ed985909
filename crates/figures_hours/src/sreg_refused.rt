// sReg hours and joint calls with faults: which refusal comes first, and that no state is answered beside one.
use crate::{hour_cases, joint_cases, sreg_cases};
use hour::Terms;
use month::Month;
use sreg::EventState;
use std::io;
use units::{Kilowatts, limits};

pub(crate) fn hours(rt: &impl Print) -> io::Result<()> {
    println!(rt; "refused sReg hours: 1, 2, 3, 5, 4 in this order")?;
    lengths(rt)?;
    single(rt)?;
    several(rt)?;
    println!(rt; "states that an hour can end in, and others")?;
    responding(rt)?;
    holding_recovering(rt)
}

// One run of another length at a time.
fn lengths(rt: &impl Print) -> io::Result<()> {
    let none = [0u8; 0];
    let two = [100u8; 2];
    let short = [60_000i64; 3599];
    let run = [60_000i64; limits::SECONDS];
    sized(rt, &short, &run, &none)?;
    sized(rt, &run, &short, &none)?;
    sized(rt, &run, &run, &two)?;
    short_scores(rt, &run, &none)
}

fn sized(rt: &impl Print, powers: &[i64], frequencies: &[i64], earlier: &[u8]) -> io::Result<()> {
    let mut scores = [7u8; limits::SECONDS];
    lent(rt, powers, frequencies, earlier, &mut scores)
}

fn short_scores(rt: &impl Print, run: &[i64], earlier: &[u8]) -> io::Result<()> {
    let mut scores = [7u8; 3599];
    lent(rt, run, run, earlier, &mut scores)
}

fn lent(
    rt: &impl Print,
    powers: &[i64],
    frequencies: &[i64],
    earlier: &[u8],
    scores: &mut [u8],
) -> io::Result<()> {
    print!(rt; "lengths {} {}", powers.len(), frequencies.len())?;
    print!(rt; " {} {}", earlier.len(), scores.len())?;
    let terms = hour_cases::terms();
    let outside = EventState::Outside;
    sreg_cases::work(
        rt,
        "",
        powers,
        frequencies,
        terms,
        10,
        earlier,
        outside,
        scores,
    )?;
    Ok(())
}

// One fault at a time, after none.
fn single(rt: &impl Print) -> io::Result<()> {
    attempt(rt, 10_000, 43_000, 10, 6_000, 60_000, 100)?;
    attempt(rt, 0, 43_000, 10, 6_000, 60_000, 100)?;
    attempt(rt, 10_000, -1, 10, 6_000, 60_000, 100)?;
    attempt(rt, 10_000, 43_000, 11, 6_000, 60_000, 100)?;
    attempt(rt, 10_000, 43_000, 10, 200_001, 60_000, 100)?;
    attempt(rt, 10_000, 43_000, 10, 6_000, 65_001, 100)?;
    attempt(rt, 10_000, 43_000, 10, 6_000, 60_000, 101)
}

fn attempt(
    rt: &impl Print,
    capacity: i64,
    clearing: i64,
    factor: i64,
    power: i64,
    frequency: i64,
    earlier: u8,
) -> io::Result<()> {
    tried(
        rt,
        capacity,
        clearing,
        factor,
        power,
        frequency,
        earlier,
        EventState::Outside,
    )
}

// An hour at one power and one frequency, after three scores of one number.
fn tried(
    rt: &impl Print,
    capacity: i64,
    clearing: i64,
    factor: i64,
    power: i64,
    frequency: i64,
    earlier: u8,
    state: EventState,
) -> io::Result<()> {
    let three = [earlier; 3];
    print!(rt; "hour {capacity} {clearing} {factor}")?;
    print!(rt; " {power} {frequency} {earlier}")?;
    sreg_cases::state_told(rt, state)?;
    level(
        rt, capacity, clearing, factor, power, frequency, &three, state,
    )
}

// Of 7 in each place of the lent run.
fn level(
    rt: &impl Print,
    capacity: i64,
    clearing: i64,
    factor: i64,
    power: i64,
    frequency: i64,
    earlier: &[u8],
    state: EventState,
) -> io::Result<()> {
    let powers = [power; limits::SECONDS];
    let frequencies = [frequency; limits::SECONDS];
    let mut scores = [7u8; limits::SECONDS];
    let terms = Terms {
        capacity: Kilowatts(capacity),
        clearing,
        performance: 35_000,
    };
    sreg_cases::work(
        rt,
        "",
        &powers,
        &frequencies,
        terms,
        factor,
        earlier,
        state,
        &mut scores,
    )?;
    Ok(())
}

// Readings and a state with every fault, then one fault more each time.
fn several(rt: &impl Print) -> io::Result<()> {
    let state = EventState::Recovering { left: 11 };
    let two = [101u8; 2];
    tried(rt, 10_000, 43_000, 10, 200_001, 65_001, 101, state)?;
    tried(rt, 10_000, 43_000, 11, 200_001, 65_001, 101, state)?;
    tried(rt, 10_000, -1, 11, 200_001, 65_001, 101, state)?;
    tried(rt, 0, -1, 11, 200_001, 65_001, 101, state)?;
    print!(rt; "two earlier scores too")?;
    level(rt, 0, -1, 11, 200_001, 65_001, &two, state)
}

fn responding(rt: &impl Print) -> io::Result<()> {
    begun(rt, 10_000, 0)?;
    begun(rt, 10_000, 9)?;
    begun(rt, 10_000, 10)?;
    begun(rt, 200_000, 1)?;
    begun(rt, 200_001, 1)
}

fn begun(rt: &impl Print, start: i64, scored: u8) -> io::Result<()> {
    let state = EventState::Responding {
        start: Kilowatts(start),
        scored,
    };
    handed(rt, state)
}

fn handed(rt: &impl Print, state: EventState) -> io::Result<()> {
    tried(rt, 10_000, 43_000, 10, 6_000, 60_000, 100, state)
}

fn holding_recovering(rt: &impl Print) -> io::Result<()> {
    held(rt, -200_000)?;
    held(rt, -200_001)?;
    left(rt, 0)?;
    left(rt, 10)?;
    left(rt, 11)
}

fn held(rt: &impl Print, start: i64) -> io::Result<()> {
    let state = EventState::Holding {
        start: Kilowatts(start),
    };
    handed(rt, state)
}

fn left(rt: &impl Print, left: u8) -> io::Result<()> {
    handed(rt, EventState::Recovering { left })
}

// Hours of a month of 30 days, each handed a state of so many seconds left, each ending in an event's first second.
pub(crate) fn joint(rt: &impl Print) -> io::Result<()> {
    println!(rt; "sReg joint calls")?;
    let m = joint_cases::opened(30);
    let m = join(rt, 10, m, 3, 10)?;
    let m = join(rt, 10, m, 3, 10)?;
    let m = join(rt, 10, m, 0, 10)?;
    let m = join(rt, 11, m, 3, 10)?;
    join(rt, 1, m, 3, 11)?;
    Ok(())
}

fn join(rt: &impl Print, left: u8, m: Month, day: u8, hour: u8) -> io::Result<Month> {
    let powers = [10_000i64; limits::SECONDS];
    let mut frequencies = [59_881i64; limits::SECONDS];
    sreg_cases::event(&mut frequencies, 3_599, limits::SECONDS);
    print!(rt; "joint {left} {day} {hour}")?;
    let state = EventState::Recovering { left };
    posted(rt, &powers, &frequencies, state, m, day, hour)
}

// The settlement and the state, then the ledger after it.
fn posted(
    rt: &impl Print,
    powers: &[i64],
    frequencies: &[i64],
    state: EventState,
    m: Month,
    day: u8,
    hour: u8,
) -> io::Result<Month> {
    let thresholds = [95i64, 94, 93, 92, 91, 70, 0];
    let factors = [10i64, 8, 6, 4, 2, 0, -10];
    let none = [0u8; 0];
    let j = joint::sreg_joint(
        powers,
        frequencies,
        hour_cases::terms(),
        &thresholds,
        &factors,
        &none,
        state,
        m,
        day,
        hour,
    );
    let joined = j.joined;
    hour_cases::settlement(rt, "", joined.hour)?;
    sreg_cases::state_told(rt, j.state)?;
    joint_cases::ledger(rt, joined.month, day, hour)?;
    Ok(joined.month)
}
