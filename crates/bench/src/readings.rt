// The readings of an hour: a frequency that wanders from 59,700 to 60,300 mHz and back every ten minutes, or lies there
// by chance; and a power near the curve, or for sReg a consumption by chance.
ghost use Rattle.whole.specs.Whole.{Within};
ghost use Rattle.units.specs.Limits.{most_transfer};

use crate::chance;
use units::limits;

const LEAST_TRANSFER: i64 = -limits::TRANSFER;

// A capacity is below this.
const CAPACITIES: u64 = limits::CAPACITY as u64 + 1;

const POWER: u64 = limits::POWER as u64;

// What a run has: a frequency that wanders, one by chance, sReg's consumption.
#[derive(Clone, Copy)]
pub(crate) enum Rule {
    Wandering,
    ByChance,
    Consumed,
}

// The power of a second, drawn by x.
pub(crate) fn drawn(second: usize, x: u64, capacity: u64, transfers: &[i64]) -> i64 {
    let transfer = transfer_of(transfers, second);
    power(wave(second, x), x, capacity, transfer)
}

pub(crate) fn fill_powers(powers: &mut [i64], capacity: u64, transfers: &[i64]) {
    let mut x = 1;
    for (i, power) in powers.iter_mut().enumerate() {
        x = chance::next(x);
        *power = drawn(i, x, capacity, transfers);
    }
}

// A run's values, drawn by the numbers after the first.
pub(crate) fn fill(run: &mut [i64], rule: Rule, first: u64) {
    let mut x = first;
    for (i, value) in run.iter_mut().enumerate() {
        x = chance::next(x);
        *value = value_at(rule, i, x);
    }
}

// The consumption of a second, drawn by x: 0 to 1.3 times 10 MW.
pub(crate) fn consumed(x: u64) -> i64 {
    (x / 65_536 % 13_000) as i64
}

fn value_at(rule: Rule, second: usize, x: u64) -> i64 {
    match rule {
        Rule::Wandering => frequency(wave(second, x)),
        Rule::ByChance => frequency(x / 65_536 % 601),
        Rule::Consumed => consumed(x),
    }
}

// The planned transfer of a second.
fn transfer_of(transfers: &[i64], second: usize) -> i64
    ensures { Within most_transfer result }
{
    let planned = whole::at(transfers, second);
    if whole::within(planned, LEAST_TRANSFER, limits::TRANSFER) {
        return planned;
    }
    0
}

// The power, around the transfer.
fn power(wave: u64, x: u64, capacity: u64, transfer: i64) -> i64
    requires { Within most_transfer transfer }
{
    let answer = (raised(wave, x, capacity) % 500_000) as i64 - limits::POWER;
    answer + transfer
}

// The answer in kW, up to 6 percent off by chance, above -200,000.
fn raised(wave: u64, x: u64, capacity: u64) -> u64 {
    let size = capacity % CAPACITIES;
    let part = given(wave, x) % 501 + x / 1_048_576 % 33;
    let answer = part * size / 250 % 300_000;
    let middle = size * 266 / 250;
    POWER + answer - middle
}

// The answer as it is given: one in 64 is the opposite one.
fn given(wave: u64, x: u64) -> u64 {
    let right = answer(wave) % 501;
    if x / 16_777_216 % 64 == 0 {
        return 500 - right;
    }
    right
}

// What part of 500 the answer to a frequency is: 500 for full discharge, 0 for full charge.
fn answer(wave: u64) -> u64 {
    if wave < 50 {
        return 500;
    }
    if 550 < wave {
        return 0;
    }
    550 - wave
}

// How far the frequency of a second is above 59,700: 0 to 600, up and down, within a few millihertz by chance.
fn wave(second: usize, x: u64) -> u64 {
    let turn = (second as u64 % 600 * 2 + x / 65_536 % 16) % 1200;
    if turn < 600 {
        return turn;
    }
    1200 - turn
}

fn frequency(height: u64) -> i64 {
    (59_700 + height % 601) as i64
}
