// The fees of an hour and the loss fee.
use crate::readings;
use fees::Charged;
use std::io;
use units::{Dollars, Kilowatts, limits};

// Document 001, example 1; 443 dollars for 10 MW; a half; the limits.
pub(crate) fn of_capacity(rt: &impl Print) -> io::Result<()> {
    println!(rt; "document 001, example 1: capacity and performance fees")?;
    fee(rt, 32_000, 10_000)?;
    fee(rt, 35_000, 10_000)?;
    fee(rt, 44_300, 10_000)?;
    fee(rt, 49, 1_000)?;
    fee(rt, 50, 1_000)?;
    fee(rt, 0, 1)?;
    fee(rt, 10_000_000, 100_000)?;
    fee(rt, 10_000_001, 100_000)?;
    fee(rt, -1, 100_000)?;
    fee(rt, 10_000_000, 100_001)?;
    fee(rt, 10_000_000, 0)?;
    fee(rt, 10_000_001, 0)?;
    fee(rt, i64::MAX, i64::MIN)?;
    fee(rt, i64::MIN, 1)
}

pub(crate) fn quality_parts(rt: &impl Print) -> io::Result<()> {
    println!(rt; "quality parts")?;
    quality(rt, 4_350, 3_500, 8)?;
    quality(rt, 4_400, 3_500, -10)?;
    quality(rt, 1, 0, 5)?;
    quality(rt, 1, 0, 4)?;
    quality(rt, 1, 0, -5)?;
    quality(rt, 1, 0, -4)?;
    quality(rt, 2, 1, 5)?;
    quality(rt, 2, 1, -5)?;
    quality(rt, 10_000_000, 10_000_000, 10)?;
    quality(rt, 10_000_000, 10_000_000, -240)?;
    quality(rt, 10_000_001, 0, 10)?;
    quality(rt, 0, 10_000_001, 10)?;
    quality(rt, -1, 0, 10)?;
    quality(rt, 0, 0, 11)?;
    quality(rt, 0, 0, -241)?;
    quality(rt, -1, 0, 11)?;
    quality(rt, i64::MIN, i64::MAX, i64::MIN)
}

// An hour at one power, with the target that its sign asks for.
pub(crate) fn steady_energy(power: i64, target: i64) -> Charged {
    let targets = [target, target, target, target];
    let powers = [power; limits::SECONDS];
    fees::energy_fee(&powers, &targets, 200_000, 50_000)
}

pub(crate) fn of_energy(rt: &impl Print) -> io::Result<()> {
    println!(rt; "document 001, table 5: the energy service fee")?;
    table_5(rt)?;
    halves(rt)?;
    limits_of_energy(rt)?;
    refused_powers(rt)
}

// Document 001, example 5 and table 3.
pub(crate) fn of_losses(rt: &impl Print) -> io::Result<()> {
    println!(rt; "document 001, example 5: the loss fee")?;
    loss(rt, 120_000, 84_000, 22_800, 40_000)?;
    loss(rt, 120_000, 96_000, 22_800, 40_000)?;
    loss(rt, 120_000, 84_000, 11_399, 40_000)?;
    loss(rt, 120_000, 84_000, 11_400, 40_000)?;
    loss(rt, 120_000, 84_000, 68_999, 40_000)?;
    loss(rt, 120_000, 84_000, 69_000, 40_000)?;
    loss(rt, 84_000, 120_000, 22_800, 40_000)?;
    loss(rt, 20, 0, 22_800, 5_000)?;
    loss(rt, 20, 0, 22_800, 4_999)?;
    loss(rt, 100_000_000, 0, 1, 1_000_000)?;
    loss(rt, 100_000_000, 100_000_000, 1_000_000, 0)
}

pub(crate) fn refused_losses(rt: &impl Print) -> io::Result<()> {
    println!(rt; "loss fees past the limits")?;
    loss(rt, 100_000_001, 0, 22_800, 40_000)?;
    loss(rt, -1, 0, 22_800, 40_000)?;
    loss(rt, 0, 100_000_001, 22_800, 40_000)?;
    loss(rt, 0, -1, 22_800, 40_000)?;
    loss(rt, 0, 0, 0, 40_000)?;
    loss(rt, 0, 0, 1_000_001, 40_000)?;
    loss(rt, 0, 0, 22_800, 1_000_001)?;
    loss(rt, 0, 0, 22_800, -1)?;
    loss(rt, -1, 0, 22_800, -1)?;
    loss(rt, i64::MAX, i64::MIN, i64::MIN, i64::MAX)
}

// A price in hundredths and a capacity, then refusal and dollars.
fn fee(rt: &impl Print, price: i64, capacity: i64) -> io::Result<()> {
    print!(rt; "fee {price} {capacity}")?;
    answer(rt, fees::fee(price, Kilowatts(capacity)))
}

fn answer(rt: &impl Print, c: Charged) -> io::Result<()> {
    println!(rt; " {} {}", c.refusal, c.dollars.0)
}

// Both fees and a factor in tenths, then refusal and dollars.
fn quality(rt: &impl Print, capacity: i64, performance: i64, factor: i64) -> io::Result<()> {
    print!(rt; "quality part {capacity} {performance} {factor}")?;
    answer(
        rt,
        fees::quality_part(Dollars(capacity), Dollars(performance), factor),
    )
}

// Document 001, table 5: charging at 500 dollars.
fn table_5(rt: &impl Print) -> io::Result<()> {
    let means = [-3_000, -2_900, 100, -3_200];
    energy(rt, "table 5", means, -3_000, 200_000, 50_000)?;
    energy(rt, "no target", means, 0, 200_000, 50_000)?;
    energy(rt, "discharging", means, 3_000, 200_000, 50_000)
}

// The energy service fee of an hour by its quarters' means.
fn energy(
    rt: &impl Print,
    label: &str,
    means: [i64; 4],
    target: i64,
    discharge: i64,
    charge: i64,
) -> io::Result<()> {
    let mut powers = [means[0]; limits::SECONDS];
    readings::stretch(&mut powers, limits::QUARTER, 2 * limits::QUARTER, means[1]);
    readings::stretch(
        &mut powers,
        2 * limits::QUARTER,
        3 * limits::QUARTER,
        means[2],
    );
    readings::stretch(&mut powers, 3 * limits::QUARTER, limits::SECONDS, means[3]);
    charged(rt, label, &powers, target, discharge, charge)
}

fn charged(
    rt: &impl Print,
    label: &str,
    powers: &[i64],
    target: i64,
    discharge: i64,
    charge: i64,
) -> io::Result<()> {
    let targets = [target, target, target, target];
    print!(rt; "{label}")?;
    answer(rt, fees::energy_fee(powers, &targets, discharge, charge))
}

fn halves(rt: &impl Print) -> io::Result<()> {
    let means = [0, 0, 0, 2];
    energy(rt, "a half", means, 1, 100_000, 0)?;
    energy(rt, "a half charging", means, -1, 0, 100_000)?;
    energy(rt, "less than a half", means, 1, 99_999, 0)
}

fn limits_of_energy(rt: &impl Print) -> io::Result<()> {
    let most = [200_000, 200_000, 200_000, 200_000];
    energy(rt, "most", most, 100_000, 10_000_000, 10_000_000)?;
    energy(rt, "least", most, -100_000, 10_000_000, 10_000_000)?;
    energy(rt, "price above", most, 1, 10_000_001, 0)?;
    energy(rt, "price below", most, 1, 0, -1)?;
    energy(rt, "target above", most, 100_001, 0, 0)?;
    energy(rt, "price and target above", most, 100_001, 10_000_001, 0)
}

// A last power past its limit, and a run too short.
fn refused_powers(rt: &impl Print) -> io::Result<()> {
    let mut powers = [200_000i64; limits::SECONDS];
    powers[3_599] = 200_001;
    charged(rt, "a power above", &powers, 1, 0, 0)?;
    charged(rt, "a power and a target above", &powers, 100_001, 0, 0)?;
    let short = [200_001i64; 3599];
    charged(rt, "3,599 powers", &short, 100_001, 10_000_001, 0)
}

// Energy charged and discharged, voltage and cost, then refusal, basic, excess and total.
fn loss(rt: &impl Print, charged: i64, discharged: i64, voltage: i64, cost: i64) -> io::Result<()> {
    let (refusal, basic, excess, total) = match loss::loss_fee(charged, discharged, voltage, cost) {
        Ok(l) => (0, l.basic.0, l.excess.0, l.total.0),
        Err(refusal) => (refusal.number(), 0, 0, 0),
    };
    println!(rt;
        "loss fee {charged} {discharged} {voltage} {cost} {refusal} {basic} {excess} {total}"
    )
}
