// The joint call: an hour that is worked out and posted.
use crate::{hour_cases, readings};
use month::Month;
use std::io;
use units::{Dollars, Millihertz, Refusal, limits};

pub(crate) fn joint(rt: &impl Print) -> io::Result<()> {
    println!(rt; "joint calls")?;
    let mut powers = [0i64; limits::SECONDS];
    let frequencies = [60_000i64; limits::SECONDS];
    let m = posts(rt, &powers, &frequencies)?;
    readings::stretch(&mut powers, 3 * limits::QUARTER, limits::SECONDS, 900);
    let m = closes(rt, &powers, &frequencies, m)?;
    join(rt, "no month", &powers, &frequencies, 0, opened(27), 3, 12)?;
    forged(rt, &powers, &frequencies)?;
    readings::stretch(&mut powers, 0, 1, -200_001);
    join(
        rt,
        "closed, a power below",
        &powers,
        &frequencies,
        0,
        m,
        3,
        12,
    )?;
    Ok(())
}

// A place that fills, and what the ledger or the hour refuses.
fn posts(rt: &impl Print, powers: &[i64], frequencies: &[i64]) -> io::Result<Month> {
    let m = opened(30);
    let m = join(rt, "posted", powers, frequencies, 0, m, 3, 10)?;
    let m = join(rt, "place filled", powers, frequencies, 0, m, 3, 10)?;
    let m = join(rt, "day 31", powers, frequencies, 0, m, 31, 10)?;
    let m = join(rt, "hour 24", powers, frequencies, 0, m, 3, 24)?;
    join(
        rt,
        "a target above, place filled",
        powers,
        frequencies,
        100_001,
        m,
        3,
        10,
    )
}

pub(crate) fn opened(days: u8) -> Month {
    Month::open(days).unwrap_or(Month {
        days: 0,
        closed: false,
        basic: Dollars(0),
        excess: Dollars(0),
        marks: [false; Month::PLACES],
        amounts: [0; Month::PLACES],
    })
}

fn join(
    rt: &impl Print,
    label: &str,
    powers: &[i64],
    frequencies: &[i64],
    target: i64,
    m: Month,
    day: u8,
    hour: u8,
) -> io::Result<Month> {
    let none = [0u8; 0];
    let reference = limits::NOMINAL;
    join_after(
        rt,
        label,
        powers,
        frequencies,
        reference,
        target,
        &none,
        m,
        day,
        hour,
    )
}

// The settlement, then the ledger after it.
pub(crate) fn join_after(
    rt: &impl Print,
    label: &str,
    powers: &[i64],
    frequencies: &[i64],
    reference: i64,
    target: i64,
    earlier: &[u8],
    m: Month,
    day: u8,
    hour: u8,
) -> io::Result<Month> {
    let thresholds = [95i64, 94, 93, 92, 91, 70, 0];
    let factors = [10i64, 8, 6, 4, 2, 0, -10];
    let shift = hour_cases::shift_of([0, 0, 0, 0, target]);
    let j = joint::joint(
        powers,
        frequencies,
        hour_cases::terms(),
        Millihertz(reference),
        shift,
        &thresholds,
        &factors,
        earlier,
        m,
        day,
        hour,
    );
    hour_cases::settlement(rt, label, j.hour)?;
    ledger(rt, j.month, day, hour)?;
    Ok(j.month)
}

// The hour's place, the total and the standing hours.
pub(crate) fn ledger(rt: &impl Print, m: Month, day: u8, hour: u8) -> io::Result<()> {
    told(rt, m.hour(day, hour))?;
    told(rt, m.total())?;
    match m.standing() {
        Ok(standing) => println!(rt; " 0 {standing}"),
        Err(refusal) => println!(rt; " {} 0", refusal.number()),
    }
}

// A read-out's refusal, then its amount, 0 beside a refusal.
pub(crate) fn told(rt: &impl Print, answer: Result<Dollars, Refusal>) -> io::Result<()> {
    match answer {
        Ok(amount) => print!(rt; " 0 {}", amount.0),
        Err(refusal) => print!(rt; " {} 0", refusal.number()),
    }
}

// Hours with energy service, a withdrawn hour and a closed month.
fn closes(rt: &impl Print, powers: &[i64], frequencies: &[i64], m: Month) -> io::Result<Month> {
    let m = join(rt, "another hour", powers, frequencies, 5, m, 3, 11)?;
    let m = withdrawn(m, 3, 10);
    let m = join(rt, "posted again", powers, frequencies, -5, m, 3, 10)?;
    let m = closed(m);
    join(rt, "closed", powers, frequencies, 0, m, 3, 12)?;
    join(rt, "closed, day 0", powers, frequencies, 0, m, 0, 12)
}

fn withdrawn(m: Month, day: u8, hour: u8) -> Month {
    m.withdraw(day, hour).unwrap_or(m)
}

fn closed(m: Month) -> Month {
    m.close().unwrap_or(m)
}

fn forged(rt: &impl Print, powers: &[i64], frequencies: &[i64]) -> io::Result<()> {
    let mut m = opened(30);
    m.amounts[0] = 1;
    join(
        rt,
        "a ledger that no run of calls hands back",
        powers,
        frequencies,
        0,
        m,
        3,
        12,
    )?;
    Ok(())
}
