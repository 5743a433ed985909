// Document 001's worked months, hour by hour.
use crate::{fees_cases, joint_cases};
use month::Month;
use std::io;
use units::{Dollars, Kilowatts, Megawatts};

// An awarded hour as a table prints it: day and hour, capacity in MW, clearing and performance price in hundredths, the
// rate.
#[derive(Clone, Copy)]
struct Award {
    day: u8,
    hour: u8,
    capacity: i64,
    clearing: i64,
    performance: i64,
    rate: u8,
}

// Document 001, table 4.
pub(crate) fn march(rt: &impl Print) -> io::Result<()> {
    println!(rt; "document 001, table 4: a dReg month")?;
    let m = opened(31);
    let m = dreg(rt, m, 3, 10, 10, 43_000, 96)?;
    let m = dreg(rt, m, 3, 11, 10, 43_500, 94)?;
    let m = dreg(rt, m, 3, 12, 10, 44_000, 69)?;
    let m = dreg(rt, m, 3, 13, 10, 44_200, 70)?;
    let m = dreg(rt, m, 4, 8, 12, 42_000, 93)?;
    let m = dreg(rt, m, 4, 9, 12, 41_000, 94)?;
    let m = dreg(rt, m, 4, 10, 12, 41_500, 95)?;
    day(rt, m, 3)?;
    day(rt, m, 4)?;
    total(rt, m, 8_658)
}

// Document 001, table 6.
pub(crate) fn april(rt: &impl Print) -> io::Result<()> {
    println!(rt; "document 001, table 6: an E-dReg month")?;
    let m = opened(30);
    let m = april_hour(rt, m, 0, 42_000, 99, -3_500, -3_000)?;
    let m = april_hour(rt, m, 1, 43_000, 94, -3_000, -3_000)?;
    let m = april_hour(rt, m, 2, 42_500, 96, -4_200, -4_000)?;
    let m = april_rest(rt, m, 3, 17, 43_000)?;
    let m = april_hour(rt, m, 17, 45_000, 92, 4_200, 4_000)?;
    let m = april_hour(rt, m, 18, 45_500, 90, 2_200, 3_000)?;
    let m = april_hour(rt, m, 19, 44_000, 91, 2_500, 3_000)?;
    let m = april_rest(rt, m, 20, 23, 42_000)?;
    let m = april_hour(rt, m, 23, 42_000, 96, 0, 0)?;
    day(rt, m, 12)?;
    total(rt, m, 35_488)
}

// Document 001, table 11: its second day on whole hourly amounts.
pub(crate) fn january(rt: &impl Print) -> io::Result<()> {
    println!(rt; "document 001, table 11: hours are rounded, then added")?;
    let m = opened(31);
    let m = post(m, 4, 18, -31_817);
    let m = post(m, 4, 19, 10_325);
    let m = post(m, 4, 20, 8_183);
    let m = post(m, 4, 21, 1_575);
    let m = post(m, 4, 22, 1_575);
    let m = post(m, 4, 23, 1_600);
    day(rt, m, 4)?;
    total(rt, m, 0)
}

fn opened(days: u8) -> Month {
    joint_cases::opened(days)
}

// A dReg hour at 350 dollars performance price.
fn dreg(
    rt: &impl Print,
    m: Month,
    day: u8,
    hour: u8,
    capacity: i64,
    clearing: i64,
    rate: u8,
) -> io::Result<Month> {
    let award = Award {
        day,
        hour,
        capacity,
        clearing,
        performance: 35_000,
        rate,
    };
    settle(rt, m, award, Dollars(0))
}

// Posts an hour and prints its row: hour, fees, factor, energy service fee, amount and the ledger's refusal.
fn settle(rt: &impl Print, m: Month, award: Award, energy: Dollars) -> io::Result<Month> {
    let size = kilowatts(award.capacity);
    let capacity = fee_of(award.clearing, size);
    let performance = fee_of(award.performance, size);
    let factor = list_s(award.rate);
    let quality = quality_of(capacity, performance, factor);
    let amount = amount_of(quality, energy);
    let (refusal, after) = match m.post(award.day, award.hour, amount) {
        Ok(next) => (0, next),
        Err(refusal) => (refusal.number(), m),
    };
    print!(rt;
        "hour {} {} {} {}",
        award.hour, capacity.0, performance.0, award.rate
    )?;
    println!(rt; " {factor} {} {} {refusal}", energy.0, amount.0)?;
    Ok(after)
}

fn kilowatts(figure: i64) -> Kilowatts {
    units::to_kilowatts(Megawatts(figure)).unwrap_or(Kilowatts(0))
}

fn fee_of(price: i64, capacity: Kilowatts) -> Dollars {
    fees::fee(price, capacity).dollars
}

// Document 01's list S.
fn list_s(rate: u8) -> i64 {
    let thresholds = [95i64, 94, 93, 92, 91, 70, 0];
    let factors = [10i64, 8, 6, 4, 2, 0, -10];
    bands::factor(&thresholds, &factors, rate).unwrap_or(0)
}

fn quality_of(capacity: Dollars, performance: Dollars, factor: i64) -> Dollars {
    fees::quality_part(capacity, performance, factor).dollars
}

// The quality part and the energy service fee together.
fn amount_of(quality: Dollars, energy: Dollars) -> Dollars {
    Dollars(whole::sum(&[quality.0, energy.0]).unwrap_or(0))
}

fn day(rt: &impl Print, m: Month, day: u8) -> io::Result<()> {
    print!(rt; "day")?;
    print!(rt; " {}", day)?;
    joint_cases::told(rt, m.day(day))?;
    println!(rt; "")
}

// A table's loss fee, which is one figure there, as the basic fee; then the month total.
fn total(rt: &impl Print, m: Month, fee: i64) -> io::Result<()> {
    let (refusal, after) = match m.set_basic_fee(Dollars(fee)) {
        Ok(next) => (0, next),
        Err(refusal) => (refusal.number(), m),
    };
    print!(rt; "total {refusal}")?;
    joint_cases::told(rt, after.total())?;
    println!(rt; "")
}

// An hour of 12 April: 10 MW at 475 dollars performance price, with the hour's mean power and target in kW.
fn april_hour(
    rt: &impl Print,
    m: Month,
    hour: u8,
    clearing: i64,
    rate: u8,
    mean: i64,
    target: i64,
) -> io::Result<Month> {
    let c = fees_cases::steady_energy(mean, target);
    let award = Award {
        day: 12,
        hour,
        capacity: 10,
        clearing,
        performance: 47_500,
        rate,
    };
    settle(rt, m, award, c.dollars)
}

// The table's rows between two hours: no transfer, 95 percent.
fn april_rest(rt: &impl Print, m: Month, from: u8, to: u8, clearing: i64) -> io::Result<Month> {
    let mut next = m;
    for hour in from..to {
        next = april_hour(rt, next, hour, clearing, 95, 0, 0)?;
    }
    Ok(next)
}

fn post(m: Month, day: u8, hour: u8, amount: i64) -> Month {
    m.post(day, hour, Dollars(amount)).unwrap_or(m)
}
