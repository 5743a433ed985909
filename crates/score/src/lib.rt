// A second's score by its percent output, and the scores of a run of seconds.
#![tactic(auto)]

ghost use Rattle.std.specs.Prelude.{◌≡◌, true, ◌+◌, ◌*◌, ◌-◌, ◌≤◌, pos, nat_abs, ◌*ℤ◌, length};
ghost use Rattle.std.specs.Int.Signed.{lt_z, le_z};
ghost use Rattle.whole.specs.Choice.{pick};
ghost use Rattle.whole.specs.Folds.{all_to};
ghost use Rattle.whole.specs.Whole.{up, down, Within, Between, half_up, nearest};
ghost use Rattle.units.specs.Limits.{most_capacity, most_power, most_transfer, most_score};
ghost use Rattle.curve.specs.Curve.{most_percent, pairs_of};
ghost use Rattle.curve.specs.Inner.{past_first};
ghost use Rattle.curve.specs.Moved.{CurveFits};
ghost use Rattle.score.specs.Score.{percent_output, score_of, second_refusal, judged_by, second_score};
ghost use Rattle.score.specs.Inner.{most_output, least_by_inverse, inverse_of, award_refusal, second_fits, fit_at, seconds_refusal};
ghost use Rattle.score.specs.Run.{run_refusal, run_scores, run_left};

use curve::Bounds;
use units::{Kilowatts, Millihertz, limits, refusals};

const LEAST_POWER: i64 = -limits::POWER;

const LEAST_TRANSFER: i64 = -limits::TRANSFER;

const MOST_SCORE: i64 = limits::SCORE as i64;

// The capacity from which percents go by the inverse, and what the inverse is a part of.
const BY_INVERSE: i64 = 32;

const SCALE: u64 = 17_592_186_044_416;

// A second's score, or its refusal with 0.
#[derive(Clone, Copy)]
pub struct Scored {
    pub refusal: u8,
    pub score: u8,
}

// The score of a second's power by the frequency of the second before, the curve's corners around a reference.
#[tactic(auto, unfolding(crate::specs::Score::second_score))]
pub fn second_score(
    power: Kilowatts,
    transfer: Kilowatts,
    capacity: Kilowatts,
    frequency: Millihertz,
    reference: Millihertz,
) -> Scored
    ensures { result ≡ second_score power transfer capacity frequency reference }
{
    let refusal = refusal(power, transfer, capacity, frequency, reference);
    let score = if refusal == 0 {
        judged_by(power, transfer, capacity, frequency, reference)
    } else {
        0
    };
    Scored { refusal, score }
}

// The scores of a run of seconds, each by its power, its planned transfer and the frequency of the second before, all
// at one place, and by one reference. A refused run stays as it was.
#[tactic(auto, unfolding(crate::specs::Run::run_left))]
pub fn run_scores(
    powers: &[i64],
    frequencies: &[i64],
    transfers: &[i64],
    capacity: Kilowatts,
    reference: Millihertz,
    scores: &mut [u8],
) -> u8
    ensures { (result ≡ run_refusal powers.now frequencies.now transfers.now capacity reference (length scores.old)) × (scores.new ≡ run_left powers.now frequencies.now transfers.now capacity reference scores.old) }
{
    let number = run_refusal(
        powers,
        frequencies,
        transfers,
        capacity,
        reference,
        scores.len(),
    );
    if number == 0 {
        fill(powers, frequencies, transfers, capacity, reference, scores);
    }
    number
}

// 2, 19, 10, 4; 0 lets the second through.
#[tactic(auto, unfolding(crate::specs::Score::second_refusal, crate::specs::Inner::award_refusal))]
fn refusal(
    power: Kilowatts,
    transfer: Kilowatts,
    capacity: Kilowatts,
    frequency: Millihertz,
    reference: Millihertz,
) -> u8
    ensures { result ≡ second_refusal power transfer capacity frequency reference }
{
    let reading = whole::within(power.0, LEAST_POWER, limits::POWER)
        & whole::within(frequency.0, limits::LEAST_FREQUENCY, limits::MOST_FREQUENCY);
    let readings = whole::unless(reading, refusals::BAD_READING, 0);
    let transfers = whole::unless(
        whole::within(transfer.0, LEAST_TRANSFER, limits::TRANSFER),
        refusals::BAD_TRANSFER,
        readings,
    );
    award_refusal(capacity, reference, transfers)
}

// 2, 19; then what the rest says.
#[tactic(auto, unfolding(crate::specs::Inner::award_refusal))]
fn award_refusal(capacity: Kilowatts, reference: Millihertz, rest: u8) -> u8
    ensures { result ≡ award_refusal capacity reference rest }
{
    let c = capacity.0;
    let around = reference.0;
    let referred = whole::within(around, limits::LEAST_REFERENCE, limits::MOST_REFERENCE);
    let reference = whole::unless(referred, refusals::BAD_REFERENCE, rest);
    let awarded = whole::within(c, 1, limits::CAPACITY);
    whole::unless(awarded, refusals::BAD_CAPACITY, reference)
}

// The score of a second that is not refused.
fn judged_by(
    power: Kilowatts,
    transfer: Kilowatts,
    capacity: Kilowatts,
    frequency: Millihertz,
    reference: Millihertz,
) -> u8
    requires { second_refusal power transfer capacity frequency reference ≡ 0 }
    ensures { result ≡ judged_by power transfer capacity frequency reference }
{
    let told = curve::curve(frequency, reference);
    let bounds = told.unwrap_or(Bounds { upper: 0, lower: 0 });
    by_bounds(
        power,
        transfer,
        capacity,
        inverse(capacity),
        bounds.upper,
        bounds.lower,
    )
}

fn by_bounds(
    power: Kilowatts,
    transfer: Kilowatts,
    capacity: Kilowatts,
    inverse: u64,
    upper: i64,
    lower: i64,
) -> u8
    requires within { Within most_power power.0 × (Within most_transfer transfer.0 × Between (pos 1) (pos most_capacity) capacity.0) }
    requires inverse_value { inverse ≡ inverse_of (nat_abs capacity.0) }
    requires within_2 { Within most_percent upper × (Within most_percent lower × (le_z lower upper ≡ true)) }
    ensures { result ≡ score_of (percent_output power.0 transfer.0 capacity.0) upper lower }
{
    let output = percent_output(power, transfer, capacity, inverse);
    score_of(output, upper, lower)
}

// The nearest whole percent of (power - transfer) over capacity.
#[tactic(auto, unfolding(crate::specs::Score::percent_output))]
fn percent_output(power: Kilowatts, transfer: Kilowatts, capacity: Kilowatts, inverse: u64) -> i64
    requires within { Within most_power power.0 × (Within most_transfer transfer.0 × Between (pos 1) (pos most_capacity) capacity.0) }
    requires inverse_value { inverse ≡ inverse_of (nat_abs capacity.0) }
    ensures { result ≡ percent_output power.0 transfer.0 capacity.0 }
{
    nearest_percent(power.0 - transfer.0, capacity.0, inverse)
}

// By a division where the product with the inverse may not fit 64 bits.
fn nearest_percent(reach: i64, capacity: i64, inverse: u64) -> i64
    requires within { Within (most_power + most_transfer) reach × Between (pos 1) (pos most_capacity) capacity }
    requires inverse_value { inverse ≡ inverse_of (nat_abs capacity) }
    ensures { result ≡ nearest (reach *ℤ pos 100) (nat_abs capacity) }
{
    if capacity < BY_INVERSE {
        return whole::nearest(reach * 100, capacity);
    }
    let size = percents(reach.unsigned_abs(), capacity.unsigned_abs(), inverse) as i64;
    if reach < 0 { -size } else { size }
}

fn percents(reach: u64, capacity: u64, inverse: u64) -> u64
    requires reach_bound { (reach ≤ most_power + most_transfer) × ((least_by_inverse ≤ capacity) × (capacity ≤ most_capacity)) }
    requires inverse_value { inverse ≡ inverse_of capacity }
    ensures { (result ≡ half_up (reach * 100) capacity) × (result ≤ most_output) }
{
    (reach * 200 + capacity) * inverse / SCALE
}

// 100 within the bounds, else 100 less the distance to the nearer bound, and never below 0: 100 less how far the output
// lies above the upper bound or below the lower one.
fn score_of(output: i64, upper: i64, lower: i64) -> u8
    requires { Within most_output output × (Within most_percent upper × (Within most_percent lower × (le_z lower upper ≡ true))) }
    ensures { result ≡ score_of output upper lower }
{
    less((output - upper).max(lower - output))
}

// 100 less the distance, and never below 0; a distance below 0 is none. (By `clamp` a dReg hour took 1.27 times as
// long.)
fn less(distance: i64) -> u8
    ensures { result ≡ most_score - (up distance - down distance) }
{
    if distance < 0 {
        return limits::SCORE;
    }
    if MOST_SCORE <= distance {
        return 0;
    }
    (MOST_SCORE - distance) as u8
}

// What a run of seconds multiplies by, so that it divides by the capacity once.
#[tactic(auto, unfolding(crate::specs::Inner::inverse_of))]
fn inverse(capacity: Kilowatts) -> u64
    requires { Between (pos 1) (pos most_capacity) capacity.0 }
    ensures { result ≡ inverse_of (nat_abs capacity.0) }
{
    SCALE / (2 * capacity.0.unsigned_abs()) + 1
}

// 1, 2, 19, 10, 4; 0 lets the run through.
#[tactic(auto, unfolding(crate::specs::Run::run_refusal, crate::specs::Inner::award_refusal))]
fn run_refusal(
    powers: &[i64],
    frequencies: &[i64],
    transfers: &[i64],
    capacity: Kilowatts,
    reference: Millihertz,
    places: usize,
) -> u8
    ensures { result ≡ run_refusal powers.now frequencies.now transfers.now capacity reference places }
{
    let n = powers.len();
    if (frequencies.len() == n) & (transfers.len() == n) & (places == n) {
        let seconds = seconds_refusal(powers, frequencies, transfers);
        return award_refusal(capacity, reference, seconds);
    }
    refusals::WRONG_LENGTH
}

// 10, 4. Seconds that all fit are looked at once.
#[tactic(auto, using(crate::proofs::Run::fit_none, crate::proofs::Run::fit_which))]
fn seconds_refusal(powers: &[i64], frequencies: &[i64], transfers: &[i64]) -> u8
    requires { (length frequencies.now ≡ length powers.now) × (length transfers.now ≡ length powers.now) }
    ensures { result ≡ seconds_refusal powers.now frequencies.now transfers.now }
{
    if seconds_fit(powers, frequencies, transfers) {
        0
    } else {
        let planned = whole::all_within(transfers, LEAST_TRANSFER, limits::TRANSFER);
        whole::unless(planned, refusals::BAD_TRANSFER, refusals::BAD_READING)
    }
}

// Whether every second's transfer, power and frequency lies in its range.
fn seconds_fit(powers: &[i64], frequencies: &[i64], transfers: &[i64]) -> bool
    requires { (length frequencies.now ≡ length powers.now) × (length transfers.now ≡ length powers.now) }
    ensures { result ≡ all_to (length powers.now) (fit_at powers.now frequencies.now transfers.now) }
{
    for (i, power) in powers.iter().enumerate() {
        if !second_fits(*power, frequencies[i], transfers[i]) {
            return false;
        }
    }
    true
}

#[tactic(auto, unfolding(crate::specs::Inner::second_fits))]
fn second_fits(power: i64, frequency: i64, transfer: i64) -> bool
    ensures { result ≡ second_fits power frequency transfer }
{
    whole::within(transfer, LEAST_TRANSFER, limits::TRANSFER)
        & (whole::within(power, LEAST_POWER, limits::POWER)
            & whole::within(frequency, limits::LEAST_FREQUENCY, limits::MOST_FREQUENCY))
}

// The curve's table and the capacity's inverse are made once for the whole run.
fn fill(
    powers: &[i64],
    frequencies: &[i64],
    transfers: &[i64],
    capacity: Kilowatts,
    reference: Millihertz,
    scores: &mut [u8],
)
    requires { run_refusal powers.now frequencies.now transfers.now capacity reference (length scores.old) ≡ 0 }
    ensures { scores.new ≡ run_scores powers.now frequencies.now transfers.now capacity reference }
{
    let pairs = curve::pairs();
    fill_by(
        &pairs,
        powers,
        frequencies,
        transfers,
        capacity,
        inverse(capacity),
        reference,
        scores,
    );
}

fn fill_by(
    pairs: &[i8],
    powers: &[i64],
    frequencies: &[i64],
    transfers: &[i64],
    capacity: Kilowatts,
    inverse: u64,
    reference: Millihertz,
    scores: &mut [u8],
)
    requires inverse_value { inverse ≡ inverse_of (nat_abs capacity.0) }
    requires pairs_value { pairs.now ≡ pairs_of }
    requires scores_value { run_refusal powers.now frequencies.now transfers.now capacity reference (length scores.old) ≡ 0 }
    ensures { scores.new ≡ run_scores powers.now frequencies.now transfers.now capacity reference }
{
    for (i, score) in scores.iter_mut().enumerate() {
        *score = judged_in(
            pairs,
            Kilowatts(powers[i]),
            Kilowatts(transfers[i]),
            capacity,
            inverse,
            Millihertz(frequencies[i]),
            reference,
        );
    }
}

// `judged_by`, with the curve's table at hand.
fn judged_in(
    pairs: &[i8],
    power: Kilowatts,
    transfer: Kilowatts,
    capacity: Kilowatts,
    inverse: u64,
    frequency: Millihertz,
    reference: Millihertz,
) -> u8
    requires inverse_value { inverse ≡ inverse_of (nat_abs capacity.0) }
    requires pairs_value { pairs.now ≡ pairs_of }
    requires reference_value { second_refusal power transfer capacity frequency reference ≡ 0 }
    ensures { result ≡ judged_by power transfer capacity frequency reference }
{
    let k = 2 * curve::place(past_first(frequency, reference));
    let upper = pairs[k] as i64;
    let lower = pairs[k + 1] as i64;
    by_bounds(power, transfer, capacity, inverse, upper, lower)
}

// How far a frequency lies past the first corner around a reference.
fn past_first(frequency: Millihertz, reference: Millihertz) -> i64
    requires { CurveFits frequency reference }
    ensures { result ≡ past_first reference.0 frequency.0 }
{
    frequency.0 - (reference.0 - curve::REACH)
}
