// The hour, dReg or E-dReg: its refusals in order, its scores, its rate and its fees.
#![tactic(auto)]

ghost use Rattle.std.specs.Prelude.{◌≡◌, true, ◌&&◌, length, take, drop};
ghost use Rattle.whole.specs.Whole.{Within};
ghost use Rattle.units.specs.Limits.{is_capacity, is_reference, is_price};
ghost use Rattle.fees.specs.Fees.{energy_answer, most_energy_fee};
ghost use Rattle.ramp.specs.Ramp.{plan_of};
ghost use Rattle.hour.specs.Hour.{terms_refusal, edreg, dreg_hour, edreg_hour, energy_of, energy_prices_fit, targets_fit, lengths_fit, scores_left, refused_hour, settled_of, hour_answer, at_refusal, settled_at};
ghost use Rattle.hour.specs.Inner.{worked_of, worked_left};

use units::{Dollars, Kilowatts, Millihertz, limits, refusals};

const LEAST_TRANSFER: i64 = -limits::TRANSFER;

// What an hour is settled by, besides its readings and the bands. Prices are hundredths of a dollar.
#[derive(Clone, Copy)]
pub struct Terms {
    pub capacity: Kilowatts,
    pub clearing: i64,
    pub performance: i64,
}

// What an E-dReg hour has besides: the prices of its energy, and the target before the hour and those of its four
// quarters, in kW.
#[derive(Clone, Copy)]
pub struct Shift {
    pub discharge: i64,
    pub charge: i64,
    pub targets: [i64; 5],
}

// What an hour earned, or its refusal with zeros. The factor is in tenths.
#[derive(Clone, Copy)]
pub struct Settlement {
    pub refusal: u8,
    pub rate: u8,
    pub factor: i64,
    pub capacity: Dollars,
    pub performance: Dollars,
    pub quality: Dollars,
    pub energy: Dollars,
    pub amount: Dollars,
}

// A dReg hour: its settlement, and its scores in the lent run; or its refusal, and the run as it was. The curve's
// corners stand around the reference. The hour transfers nothing and is paid no energy. The first three rolling rates
// look back into the earlier scores: the last three of the hour before, oldest first, or none.
pub fn dreg_hour(
    powers: &[i64],
    frequencies: &[i64],
    terms: Terms,
    reference: Millihertz,
    thresholds: &[i64],
    factors: &[i64],
    earlier: &[u8],
    scores: &mut [u8],
) -> Settlement
    ensures answers { result ≡ hour_answer (dreg_hour powers.now frequencies.now terms reference thresholds.now factors.now earlier.now) (length scores.old) }
    ensures leaves { scores.new ≡ scores_left (dreg_hour powers.now frequencies.now terms reference thresholds.now factors.now earlier.now) scores.old }
{
    let p = powers.len();
    let f = frequencies.len();
    let e = earlier.len();
    let n = scores.len();
    let referred = reference_fits(reference);
    let k = terms_refusal(p, f, e, n, terms, referred, thresholds, factors, true, true);
    if k != 0 {
        return refused_hour(k);
    }
    let transfers = [0i64; limits::SECONDS];
    let energy = Dollars(0);
    worked(
        powers,
        frequencies,
        &transfers,
        terms,
        reference,
        thresholds,
        factors,
        earlier,
        energy,
        scores,
    )
}

// An E-dReg hour, likewise: by the ramps of its targets, and with its energy service fee.
pub fn hour(
    powers: &[i64],
    frequencies: &[i64],
    terms: Terms,
    reference: Millihertz,
    shift: Shift,
    thresholds: &[i64],
    factors: &[i64],
    earlier: &[u8],
    scores: &mut [u8],
) -> Settlement
    ensures answers { result ≡ hour_answer (edreg_hour powers.now frequencies.now terms reference shift thresholds.now factors.now earlier.now) (length scores.old) }
    ensures leaves { scores.new ≡ scores_left (edreg_hour powers.now frequencies.now terms reference shift thresholds.now factors.now earlier.now) scores.old }
{
    let k = shift_refusal(
        powers.len(),
        frequencies.len(),
        earlier.len(),
        scores.len(),
        terms,
        reference,
        shift,
        thresholds,
        factors,
    );
    if k != 0 {
        return refused_hour(k);
    }
    shifted(
        powers,
        frequencies,
        terms,
        reference,
        shift,
        thresholds,
        factors,
        earlier,
        scores,
    )
}

// What an hour that shifts nothing comes to at a rate, for sReg's; or its refusal.
pub fn settled_at(terms: Terms, thresholds: &[i64], factors: &[i64], rate: u8) -> Settlement
    ensures { result ≡ settled_at terms thresholds.now factors.now rate }
{
    let k = at_refusal(terms, thresholds, factors, rate);
    if k != 0 {
        return refused_hour(k);
    }
    let no_energy = Dollars(0);
    settled(terms, thresholds, factors, no_energy, rate)
}

// 2, 3, 5, 4.
fn at_refusal(terms: Terms, thresholds: &[i64], factors: &[i64], rate: u8) -> u8
    ensures { result ≡ at_refusal terms thresholds.now factors.now rate }
{
    let n = limits::SECONDS;
    let k = terms_refusal(n, n, 0, n, terms, true, thresholds, factors, true, true);
    let rated = whole::unless(rate <= limits::SCORE, refusals::BAD_READING, 0);
    whole::or_else(k, rated)
}

// A refused hour, for the joint call too: its number, and zeros.
#[tactic(auto, unfolding(crate::specs::Hour::refused_hour))]
pub fn refused_hour(number: u8) -> Settlement
    ensures { result ≡ refused_hour number }
{
    let nothing = Dollars(0);
    Settlement {
        refusal: number,
        rate: 0,
        factor: 0,
        capacity: nothing,
        performance: nothing,
        quality: nothing,
        energy: nothing,
        amount: nothing,
    }
}

// 1, 2, 19, 3, 5, 10, for sReg's hour too; the readings and the earlier scores are tested where the hour is scored.
// `referred` is the test of the reference, which passes where none is taken; `priced` and `planned` are those of what
// is shifted, which pass where nothing is.
pub fn terms_refusal(
    powers: usize,
    frequencies: usize,
    earlier: usize,
    places: usize,
    terms: Terms,
    referred: bool,
    thresholds: &[i64],
    factors: &[i64],
    priced: bool,
    planned: bool,
) -> u8
    ensures { result ≡ terms_refusal powers frequencies earlier places terms referred thresholds.now factors.now priced planned }
{
    let targets = whole::unless(planned, refusals::BAD_TRANSFER, 0);
    let banded = bands::check(thresholds, factors).is_ok();
    let bands = whole::unless(banded, refusals::BAD_BANDS, targets);
    let money = prices_fit(terms.clearing, terms.performance) & priced;
    let prices = whole::unless(money, refusals::BAD_MONEY, bands);
    let reference = whole::unless(referred, refusals::BAD_REFERENCE, prices);
    let capacity = whole::unless(capacity_fits(terms), refusals::BAD_CAPACITY, reference);
    let lengths = lengths_fit(powers, frequencies, earlier, places);
    whole::unless(lengths, refusals::WRONG_LENGTH, capacity)
}

fn prices_fit(first: i64, second: i64) -> bool
    ensures { result ≡ (is_price first && is_price second) }
{
    whole::within(first, 0, limits::PRICE) & whole::within(second, 0, limits::PRICE)
}

fn capacity_fits(terms: Terms) -> bool
    ensures { result ≡ is_capacity terms.capacity.0 }
{
    whole::within(terms.capacity.0, 1, limits::CAPACITY)
}

fn reference_fits(reference: Millihertz) -> bool
    ensures { result ≡ is_reference reference.0 }
{
    whole::within(reference.0, limits::LEAST_REFERENCE, limits::MOST_REFERENCE)
}

fn lengths_fit(powers: usize, frequencies: usize, earlier: usize, places: usize) -> bool
    ensures { result ≡ lengths_fit powers frequencies earlier places }
{
    let runs = (powers == limits::SECONDS)
        & (frequencies == limits::SECONDS)
        & (places == limits::SECONDS);
    runs & rate::earlier_fits(earlier)
}

// THE CORE of both hours: the scores by the transfers, and the settlement by the scores; or the refusal of the readings
// and the earlier scores, and the run as it was.
fn worked(
    powers: &[i64],
    frequencies: &[i64],
    transfers: &[i64],
    terms: Terms,
    reference: Millihertz,
    thresholds: &[i64],
    factors: &[i64],
    earlier: &[u8],
    energy: Dollars,
    scores: &mut [u8],
) -> Settlement
    requires { Within most_energy_fee energy.0 }
    ensures answers { result ≡ worked_of powers.now frequencies.now transfers.now terms reference thresholds.now factors.now earlier.now energy (length scores.old) }
    ensures leaves { scores.new ≡ worked_left powers.now frequencies.now transfers.now terms.capacity reference earlier.now scores.old }
{
    if !rate::are_scores(earlier) {
        return refused_hour(refusals::BAD_READING);
    }
    let number = score::run_scores(
        powers,
        frequencies,
        transfers,
        terms.capacity,
        reference,
        scores,
    );
    if number != 0 {
        return refused_hour(number);
    }
    let rate = rate::hourly_rate(earlier, scores).rate;
    settled(terms, thresholds, factors, energy, rate)
}

// The factor and the fees of an hour by its rate.
fn settled(
    terms: Terms,
    thresholds: &[i64],
    factors: &[i64],
    energy: Dollars,
    rate: u8,
) -> Settlement
    requires { Within most_energy_fee energy.0 }
    ensures { result ≡ settled_of terms thresholds.now factors.now energy rate }
{
    let factor = bands::factor(thresholds, factors, rate).unwrap_or(0);
    let capacity = fees::fee(terms.clearing, terms.capacity).dollars;
    let performance = fees::fee(terms.performance, terms.capacity).dollars;
    let quality = fees::quality_part(capacity, performance, factor).dollars;
    Settlement {
        refusal: 0,
        rate,
        factor,
        capacity,
        performance,
        quality,
        energy,
        amount: Dollars(quality.0 + energy.0),
    }
}

// `terms_refusal`, with the reference and what is shifted.
fn shift_refusal(
    powers: usize,
    frequencies: usize,
    earlier: usize,
    places: usize,
    terms: Terms,
    reference: Millihertz,
    shift: Shift,
    thresholds: &[i64],
    factors: &[i64],
) -> u8
    ensures { result ≡ terms_refusal powers frequencies earlier places terms (is_reference reference.0) thresholds.now factors.now (energy_prices_fit (edreg shift)) (targets_fit (edreg shift)) }
{
    let priced = prices_fit(shift.discharge, shift.charge);
    let planned = whole::all_within(&shift.targets, LEAST_TRANSFER, limits::TRANSFER);
    terms_refusal(
        powers,
        frequencies,
        earlier,
        places,
        terms,
        reference_fits(reference),
        thresholds,
        factors,
        priced,
        planned,
    )
}

// `worked`, by the ramps of targets in their range.
fn shifted(
    powers: &[i64],
    frequencies: &[i64],
    terms: Terms,
    reference: Millihertz,
    shift: Shift,
    thresholds: &[i64],
    factors: &[i64],
    earlier: &[u8],
    scores: &mut [u8],
) -> Settlement
    requires { targets_fit (edreg shift) ≡ true }
    ensures answers { result ≡ worked_of powers.now frequencies.now (plan_of shift.targets) terms reference thresholds.now factors.now earlier.now (energy_of powers.now (edreg shift)) (length scores.old) }
    ensures leaves { scores.new ≡ worked_left powers.now frequencies.now (plan_of shift.targets) terms.capacity reference earlier.now scores.old }
{
    let mut transfers = [0i64; limits::SECONDS];
    let _ = ramp::plan(&shift.targets, &mut transfers);
    let discharge = shift.discharge;
    let charge = shift.charge;
    let energy = energy_of(powers, &shift.targets, discharge, charge);
    worked(
        powers,
        frequencies,
        &transfers,
        terms,
        reference,
        thresholds,
        factors,
        earlier,
        energy,
        scores,
    )
}

// The quarters' targets are the last four of the five.
fn energy_of(powers: &[i64], targets: &[i64], discharge: i64, charge: i64) -> Dollars
    requires { length targets.now ≡ 5 }
    ensures { result ≡ (energy_answer powers.now (take 4 (drop 1 targets.now)) discharge charge).dollars }
{
    fees::energy_fee(powers, &targets[1..5], discharge, charge).dollars
}
