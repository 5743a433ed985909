// The fees of one hour. Prices are hundredths of a dollar.
#![tactic(auto)]

ghost use Rattle.std.specs.Prelude.{◌≡◌, true, ◌<◌, ◌≤◌, length};
ghost use Rattle.whole.specs.Folds.{sum_of};
ghost use Rattle.units.specs.Limits.{is_price, are_powers, seconds_of_hour};
ghost use Rattle.fees.specs.Fees.{no_charge, fee_answer, quality_answer, signed_price, quarter_part, energy_refusal, energy_parts, energy_answer, energy_exact};

use units::{Dollars, Kilowatts, limits, refusals};

const LEAST_POWER: i64 = -limits::POWER;

const LEAST_TRANSFER: i64 = -limits::TRANSFER;

// The hundredths of a dollar by the kilowatts of a megawatt.
const FEE_PARTS: i64 = 100 * 1_000;

// The quarters of an hour, the seconds of a mean, the kilowatts of a megawatt, the hundredths of a dollar.
const ENERGY_PARTS: i64 = 4 * limits::QUARTER as i64 * 1_000 * 100;

// An amount, or the number of its refusal with 0.
#[derive(Clone, Copy)]
pub struct Charged {
    pub refusal: u8,
    pub dollars: Dollars,
}

// What the energy service fee is before it is rounded, in parts of a dollar, or the number of its refusal with 0.
#[derive(Clone, Copy)]
pub struct Exact {
    pub refusal: u8,
    pub parts: i64,
}

// The capacity fee, by the clearing price, and the performance fee, by the performance price.
pub fn fee(price: i64, capacity: Kilowatts) -> Charged
    ensures { result ≡ fee_answer price capacity }
{
    let size = capacity.0;
    let money = whole::unless(is_price(price), refusals::BAD_MONEY, 0);
    let k = whole::unless(
        whole::within(size, 1, limits::CAPACITY),
        refusals::BAD_CAPACITY,
        money,
    );
    if k == 0 {
        return Charged {
            refusal: 0,
            dollars: Dollars(whole::nearest(price * size, FEE_PARTS)),
        };
    }
    no_charge(k)
}

// The quality part of an hour: both rounded fees by the factor, in tenths.
pub fn quality_part(capacity: Dollars, performance: Dollars, factor: i64) -> Charged
    ensures { result ≡ quality_answer capacity performance factor }
{
    let first = capacity.0;
    let second = performance.0;
    let bands = whole::unless(
        whole::within(factor, limits::LEAST_FACTOR, limits::MOST_FACTOR),
        refusals::BAD_BANDS,
        0,
    );
    let k = whole::unless(
        whole::within(first, 0, limits::FEE) & whole::within(second, 0, limits::FEE),
        refusals::BAD_MONEY,
        bands,
    );
    if k == 0 {
        return Charged {
            refusal: 0,
            dollars: Dollars(whole::nearest((first + second) * factor, 10)),
        };
    }
    no_charge(k)
}

// The energy service fee of an E-dReg hour, unrounded, by its 3,600 powers and its four quarter targets, in kW.
pub fn energy_exact(powers: &[i64], targets: &[i64], discharge: i64, charge: i64) -> Exact
    ensures { result ≡ energy_exact powers.now targets.now discharge charge }
{
    let k = energy_refusal(powers, targets, discharge, charge);
    if k == 0 {
        return Exact {
            refusal: 0,
            parts: four_quarters(powers, targets, discharge, charge),
        };
    }
    Exact {
        refusal: k,
        parts: 0,
    }
}

// The same, rounded once.
pub fn energy_fee(powers: &[i64], targets: &[i64], discharge: i64, charge: i64) -> Charged
    ensures { result ≡ energy_answer powers.now targets.now discharge charge }
{
    let exact = energy_exact(powers, targets, discharge, charge);
    let k = exact.refusal;
    let parts = exact.parts;
    if k == 0 {
        return Charged {
            refusal: 0,
            dollars: Dollars(whole::nearest(parts, ENERGY_PARTS)),
        };
    }
    no_charge(k)
}

fn is_price(z: i64) -> bool
    ensures { result ≡ is_price z }
{
    whole::within(z, 0, limits::PRICE)
}

#[tactic(auto, unfolding(crate::specs::Fees::no_charge))]
fn no_charge(k: u8) -> Charged
    ensures { result ≡ no_charge k }
{
    Charged {
        refusal: k,
        dollars: Dollars(0),
    }
}

#[tactic(auto, unfolding(crate::specs::Fees::energy_refusal))]
fn energy_refusal(powers: &[i64], targets: &[i64], discharge: i64, charge: i64) -> u8
    ensures { result ≡ energy_refusal powers.now targets.now discharge charge }
{
    let readings = whole::unless(
        whole::all_within(powers, LEAST_POWER, limits::POWER),
        refusals::BAD_READING,
        0,
    );
    let transfer = whole::unless(
        whole::all_within(targets, LEAST_TRANSFER, limits::TRANSFER),
        refusals::BAD_TRANSFER,
        readings,
    );
    let money = whole::unless(
        is_price(discharge) & is_price(charge),
        refusals::BAD_MONEY,
        transfer,
    );
    whole::unless(
        (powers.len() == limits::SECONDS) & (targets.len() == 4),
        refusals::WRONG_LENGTH,
        money,
    )
}

// The four quarters added exactly.
fn four_quarters(powers: &[i64], targets: &[i64], discharge: i64, charge: i64) -> i64
    requires { energy_refusal powers.now targets.now discharge charge ≡ 0 }
    ensures { result ≡ energy_parts powers.now targets.now discharge charge }
{
    let mut sum: i64 = 0;
    for q in 0..4 {
        sum += quarter_part(powers, targets, discharge, charge, q);
    }
    sum
}

// The energy of quarter q at its price. Nothing is divided yet.
fn quarter_part(powers: &[i64], targets: &[i64], discharge: i64, charge: i64, q: usize) -> i64
    requires { (energy_refusal powers.now targets.now discharge charge ≡ 0) × (q < 4) }
    ensures { result ≡ quarter_part powers.now targets.now discharge charge q }
{
    let target = targets[q];
    let price = signed_price(discharge, charge, target);
    let start = q * limits::QUARTER;
    power_sum(&powers[start..start + limits::QUARTER]) * price
}

// The sum of powers. They have been tested, so that nothing is left but to add them.
fn power_sum(powers: &[i64]) -> i64
    requires { (are_powers powers.now ≡ true) × (length powers.now ≤ seconds_of_hour) }
    ensures { result ≡ sum_of powers.now }
{
    let mut sum: i64 = 0;
    for power in powers {
        sum += *power;
    }
    sum
}

// The price that a quarter's target brings: charging changes the sign.
#[tactic(auto, unfolding(crate::specs::Fees::signed_price))]
fn signed_price(discharge: i64, charge: i64, target: i64) -> i64
    requires { (is_price discharge ≡ true) × (is_price charge ≡ true) }
    ensures { result ≡ signed_price discharge charge target }
{
    if 0 < target {
        return discharge;
    }
    if target < 0 {
        return -charge;
    }
    0
}
