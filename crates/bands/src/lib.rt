// The quality bands: which factor a rate brings.
#![tactic(auto)]

ghost use Rattle.std.specs.Prelude.{◌≡◌};
ghost use Rattle.units.specs.Refusals.{result_by};
ghost use Rattle.bands.specs.Bands.{fall, last_threshold, bands_fit, bands_refusal, first_place, factor_answer};

use units::{Refusal, limits};

// A threshold is a rate.
const MOST_THRESHOLD: i64 = limits::SCORE as i64;

// 5 for bands against the rule.
#[tactic(auto, unfolding(crate::specs::Bands::bands_refusal))]
pub fn check(thresholds: &[i64], factors: &[i64]) -> Result<(), Refusal>
    ensures { result ≡ result_by (bands_refusal thresholds.now factors.now) tt }
{
    if !fit(thresholds, factors) {
        return Err(Refusal::BadBands);
    }
    Ok(())
}

// The factor, in tenths, of the first record whose threshold is at most the rate; or 5 or 4.
#[tactic(auto, unfolding(crate::specs::Bands::factor_answer, crate::specs::Bands::factor_refusal))]
pub fn factor(thresholds: &[i64], factors: &[i64], rate: u8) -> Result<i64, Refusal>
    ensures { result ≡ factor_answer thresholds.now factors.now rate }
{
    if !fit(thresholds, factors) {
        return Err(Refusal::BadBands);
    }
    if limits::SCORE < rate {
        return Err(Refusal::BadReading);
    }
    let place = first_place(thresholds, i64::from(rate));
    Ok(factors.get(place).copied().unwrap_or(0))
}

#[tactic(auto, unfolding(crate::specs::Bands::bands_fit))]
fn fit(thresholds: &[i64], factors: &[i64]) -> bool
    ensures { result ≡ bands_fit thresholds.now factors.now }
{
    (1 <= thresholds.len())
        & (thresholds.len() <= limits::BANDS)
        & (factors.len() == thresholds.len())
        & whole::all_within(thresholds, 0, MOST_THRESHOLD)
        & whole::all_within(factors, limits::LEAST_FACTOR, limits::MOST_FACTOR)
        & fall(thresholds)
        & whole::within(last_threshold(thresholds), 0, 0)
}

// Whether each threshold is above the next.
fn fall(thresholds: &[i64]) -> bool
    ensures { result ≡ fall thresholds.now }
{
    thresholds.is_sorted_by(|here, next| next < here)
}

// The last threshold, 0 if there is none.
fn last_threshold(thresholds: &[i64]) -> i64
    ensures { result ≡ last_threshold thresholds.now }
{
    thresholds.last().copied().unwrap_or(0)
}

// The place of the first threshold that is at most the rate; their number, if there is none.
fn first_place(thresholds: &[i64], rate: i64) -> usize
    ensures { result ≡ first_place thresholds.now rate }
{
    thresholds
        .iter()
        .position(|t| *t <= rate)
        .unwrap_or(thresholds.len())
}
