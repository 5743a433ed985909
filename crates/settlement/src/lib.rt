// What an hour comes to, whatever it was awarded for: the refusals of its terms, its fees, its quality part and its
// amount.
#![tactic(auto)]

ghost use Rattle.std.specs.Prelude.{◌≡◌, true, ◌&&◌};
ghost use Rattle.whole.specs.Choice.{in_order};
ghost use Rattle.whole.specs.Whole.{Within};
ghost use Rattle.units.specs.Limits.{is_capacity, is_price, is_energy_paid, most_energy_paid};
ghost use Rattle.settlement.specs.Settlement.{award_tests, terms_refusal, refused_hour, earned_by, at_refusal, settled_at, earned_at};

use units::{Dollars, Kilowatts, limits, refusals};

const LEAST_ENERGY_PAID: i64 = -limits::ENERGY_PAID;

// What an hour is settled by, besides its readings and the bands. Prices are hundredths of a dollar.
#[derive(Clone, Copy)]
pub struct Terms {
    pub capacity: Kilowatts,
    pub clearing: i64,
    pub performance: i64,
}

// What an hour earned, or its refusal with zeros. The factor is in tenths.
#[derive(Clone, Copy)]
pub struct Settlement {
    pub refusal: u8,
    pub rate: u8,
    pub factor: i64,
    pub capacity: Dollars,
    pub performance: Dollars,
    pub quality: Dollars,
    pub energy: Dollars,
    pub amount: Dollars,
}

// What an hour comes to by its rate, which finds the factor in the bands, and its energy fee; or its refusal.
pub fn settled_at(
    terms: Terms,
    thresholds: &[i64],
    factors: &[i64],
    energy: Dollars,
    rate: u8,
) -> Settlement
    ensures { result ≡ settled_at terms thresholds.now factors.now energy rate }
{
    let banded = bands::check(thresholds, factors).is_ok();
    let k = at_refusal(terms, banded, energy, rate);
    if k != 0 {
        return refused_hour(k);
    }
    let factor = bands::factor(thresholds, factors, rate).unwrap_or(0);
    earned(terms, factor, energy, rate)
}

// The same by a factor that no rate has to find.
pub fn earned_at(terms: Terms, factor: i64, energy: Dollars, rate: u8) -> Settlement
    ensures { result ≡ earned_at terms factor energy rate }
{
    let known = whole::within(factor, limits::LEAST_FACTOR, limits::MOST_FACTOR);
    let k = at_refusal(terms, known, energy, rate);
    if k != 0 {
        return refused_hour(k);
    }
    earned(terms, factor, energy, rate)
}

// A refused hour: its number, and zeros.
#[tactic(auto, unfolding(crate::specs::Settlement::refused_hour))]
pub fn refused_hour(number: u8) -> Settlement
    ensures { result ≡ refused_hour number }
{
    let nothing = Dollars(0);
    Settlement {
        refusal: number,
        rate: 0,
        factor: 0,
        capacity: nothing,
        performance: nothing,
        quality: nothing,
        energy: nothing,
        amount: nothing,
    }
}

// 1, 2, 19, 3, 5, 10, by the terms and the bands, and by the tests of what an hour has besides: `lengths`, `referred`
// of its reference, `priced` of its other prices, `planned` of its targets. What an hour does not take passes.
pub fn terms_refusal(
    lengths: bool,
    terms: Terms,
    referred: bool,
    thresholds: &[i64],
    factors: &[i64],
    priced: bool,
    planned: bool,
) -> u8
    ensures { result ≡ terms_refusal lengths terms referred thresholds.now factors.now priced planned }
{
    let banded = bands::check(thresholds, factors).is_ok();
    award_refusal(lengths, terms, referred, priced, banded, planned)
}

// 2, 3, 5, 4, by the test of the bands or of the factor.
fn at_refusal(terms: Terms, banded: bool, energy: Dollars, rate: u8) -> u8
    ensures { result ≡ at_refusal terms banded energy rate }
{
    let k = award_refusal(true, terms, true, energy_fits(energy), banded, true);
    let rated = whole::unless(rate <= limits::SCORE, refusals::BAD_READING, 0);
    whole::or_else(k, rated)
}

// 1, 2, 19, 3, 5, 10, by the terms and the tests of all else.
fn award_refusal(
    lengths: bool,
    terms: Terms,
    referred: bool,
    priced: bool,
    banded: bool,
    planned: bool,
) -> u8
    ensures { result ≡ in_order (award_tests lengths terms referred priced banded planned) }
{
    let targets = whole::unless(planned, refusals::BAD_TRANSFER, 0);
    let bands = whole::unless(banded, refusals::BAD_BANDS, targets);
    let money = prices_fit(terms) & priced;
    let prices = whole::unless(money, refusals::BAD_MONEY, bands);
    let reference = whole::unless(referred, refusals::BAD_REFERENCE, prices);
    let capacity = whole::unless(capacity_fits(terms), refusals::BAD_CAPACITY, reference);
    whole::unless(lengths, refusals::WRONG_LENGTH, capacity)
}

fn prices_fit(terms: Terms) -> bool
    ensures { result ≡ (is_price terms.clearing && is_price terms.performance) }
{
    whole::within(terms.clearing, 0, limits::PRICE)
        & whole::within(terms.performance, 0, limits::PRICE)
}

fn capacity_fits(terms: Terms) -> bool
    ensures { result ≡ is_capacity terms.capacity.0 }
{
    whole::within(terms.capacity.0, 1, limits::CAPACITY)
}

fn energy_fits(energy: Dollars) -> bool
    ensures { result ≡ is_energy_paid energy.0 }
{
    whole::within(energy.0, LEAST_ENERGY_PAID, limits::ENERGY_PAID)
}

// The fees, the quality part and the amount.
fn earned(terms: Terms, factor: i64, energy: Dollars, rate: u8) -> Settlement
    requires { Within most_energy_paid energy.0 }
    ensures { result ≡ earned_by terms factor energy rate }
{
    let capacity = fees::fee(terms.clearing, terms.capacity).dollars;
    let performance = fees::fee(terms.performance, terms.capacity).dollars;
    let quality = fees::quality_part(capacity, performance, factor).dollars;
    Settlement {
        refusal: 0,
        rate,
        factor,
        capacity,
        performance,
        quality,
        energy,
        amount: Dollars(quality.0 + energy.0),
    }
}
