// The questions about a whole hour: its terms, its bands as pairs, its earlier scores, for sReg a state, and its
// readings as pairs.
#![tactic(auto)]

ghost use Rattle.std.specs.Prelude.{◌≤◌, true, ◌≡◌, length, drop};
ghost use Rattle.numbers.specs.Numbers.{column};
ghost use Rattle.numbers.specs.Inner.{taken};
ghost use Rattle.words.specs.Inner.{boxed};
ghost use Rattle.hours.specs.Hours.{hour_numbers, prices_at, terms_of, reference_of, shift_of, service_of, hour_from, counts_fit, state_numbers, equals, state_asked, state_handed, state_fields, stateless, ended_by, left_by, hour_by, hour_asked, settled_by, settlement, scores_after, hour_reply};
ghost use Rattle.hours.specs.Inner.{pairs_in, fields_shown, in_twelve};

use hour::{Settlement, Shift, Terms};
use numbers::Earlier;
use sreg::EventState;
use sreg_hour::Settled;
use units::{Kilowatts, Millihertz, limits, refusals};
use words::{Few, Hour};

// Settles the hour that a question asks about, by its terms, its bands, its earlier scores and its readings, those of
// sReg after a state's three numbers; its scores go into the lent run. A number without its other among the bands,
// earlier scores that are not counted, and readings that are not two for each second, are refused with 1.
pub fn settle(
    hour: Hour,
    terms: [i64; 12],
    bands: &[i64],
    counted: bool,
    earlier: &[i64],
    readings: &[i64],
    scores: &mut [u8; limits::SECONDS],
) -> Settlement
    ensures answers { result ≡ settlement (hour_asked hour (hour_numbers terms bands.now counted earlier.now readings.now)) }
    ensures leaves { scores.new ≡ scores_after (hour_asked hour (hour_numbers terms bands.now counted earlier.now readings.now)) scores.old }
{
    settle_asked(hour, terms, bands, counted, earlier, readings, scores).hour
}

// THE FAMILY: the answer to a question about a whole hour.
pub fn answer(
    hour: Hour,
    terms: [i64; 12],
    bands: &[i64],
    counted: bool,
    earlier: &[i64],
    readings: &[i64],
) -> Few
    ensures { result ≡ boxed (hour_reply hour (hour_numbers terms bands.now counted earlier.now readings.now)) }
{
    let mut scores = [0u8; limits::SECONDS];
    let asked = settle_asked(hour, terms, bands, counted, earlier, readings, &mut scores);
    shown(hour, asked.hour, state_fields(asked.state))
}

// The fields of an answer: the settlement's, and for sReg the state's.
fn shown(hour: Hour, settled: Settlement, state: [i64; 3]) -> Few
    ensures { result ≡ in_twelve hour settled state }
{
    Few {
        refusal: settled.refusal,
        count: fields_shown(hour),
        values: [
            i64::from(settled.rate),
            settled.factor,
            settled.capacity.0,
            settled.performance.0,
            settled.quality.0,
            settled.energy.0,
            settled.amount.0,
            state[0],
            state[1],
            state[2],
            0,
            0,
        ],
    }
}

// The settlement, and the state that an sReg hour ends in.
fn settle_asked(
    hour: Hour,
    terms: [i64; 12],
    bands: &[i64],
    counted: bool,
    earlier: &[i64],
    readings: &[i64],
    scores: &mut [u8; limits::SECONDS],
) -> Settled
    ensures answers { result ≡ settled_by (hour_asked hour (hour_numbers terms bands.now counted earlier.now readings.now)) }
    ensures leaves { scores.new ≡ scores_after (hour_asked hour (hour_numbers terms bands.now counted earlier.now readings.now)) scores.old }
{
    let seconds = seconds_in(hour, readings);
    if !counts_fit(bands.len(), counted, seconds.len()) {
        return stateless(hour::refused_hour(refusals::WRONG_LENGTH));
    }
    settle_by(
        hour,
        terms_of(hour, terms),
        reference_of(hour, terms),
        shift_of(terms),
        state_in(hour, readings),
        bands,
        earlier,
        seconds,
        scores,
    )
}

// How many numbers of a state stand before an hour's readings.
fn state_numbers(hour: Hour) -> usize
    ensures is { result ≡ state_numbers hour }
    ensures most { result ≤ 3 }
{
    match hour {
        Hour::Dreg | Hour::Edreg => 0,
        Hour::Sreg => 3,
    }
}

// The readings after them.
fn seconds_in(hour: Hour, readings: &[i64]) -> &[i64]
    ensures { result.now ≡ drop (state_numbers hour) readings.now }
{
    readings.get(state_numbers(hour)..).unwrap_or(&[])
}

// The state that an sReg hour is handed; `Outside` for the others, which take none.
fn state_in(hour: Hour, readings: &[i64]) -> EventState
    ensures { result ≡ state_handed hour readings.now }
{
    match hour {
        Hour::Dreg | Hour::Edreg => EventState::Outside,
        Hour::Sreg => state_asked(
            whole::at(readings, 0),
            whole::at(readings, 1),
            whole::at(readings, 2),
        ),
    }
}

// The state of a kind, with its power and its count. Another kind, and a number that the kind does not use and is not
// 0, make one that no hour ends in.
#[tactic(auto, using(crate::proofs::States::stating))]
fn state_asked(kind: i64, power: i64, count: i64) -> EventState
    ensures { result ≡ state_asked kind power count }
{
    match (kind, power, count) {
        (0, 0, 0) => EventState::Outside,
        (1, ..) => EventState::Responding {
            start: Kilowatts(power),
            scored: numbers::byte_of(count),
        },
        (2, _, 0) => EventState::Holding {
            start: Kilowatts(power),
        },
        (3, 0, _) => EventState::Recovering {
            left: numbers::byte_of(count),
        },
        _ => EventState::Recovering { left: 0 },
    }
}

// A state as its kind, its power and its count.
fn state_fields(state: EventState) -> [i64; 3]
    ensures { result ≡ state_fields state }
{
    match state {
        EventState::Outside => [0, 0, 0],
        EventState::Responding { start, scored } => [1, start.0, i64::from(scored)],
        EventState::Holding { start } => [2, start.0, 0],
        EventState::Recovering { left } => [3, 0, i64::from(left)],
    }
}

// How many fields an answer has.
fn fields_shown(hour: Hour) -> usize
    ensures { result ≡ fields_shown hour }
{
    match hour {
        Hour::Dreg | Hour::Edreg => 7,
        Hour::Sreg => 10,
    }
}

fn counts_fit(bands: usize, counted: bool, readings: usize) -> bool
    ensures { result ≡ counts_fit bands counted readings }
{
    (bands % 2 == 0) & counted & (readings == 2 * limits::SECONDS)
}

// The same by its readings as pairs.
fn settle_by(
    hour: Hour,
    terms: Terms,
    reference: Millihertz,
    shift: Shift,
    state: EventState,
    bands: &[i64],
    earlier: &[i64],
    readings: &[i64],
    scores: &mut [u8; limits::SECONDS],
) -> Settled
    requires { counts_fit (length bands.now) true (length readings.now) ≡ true }
    ensures answers { result ≡ settled_by (hour_by hour terms reference shift state bands.now true earlier.now readings.now) }
    ensures leaves { scores.new ≡ scores_after (hour_by hour terms reference shift state bands.now true earlier.now readings.now) scores.old }
{
    let mut powers = [0i64; limits::SECONDS];
    let mut frequencies = [0i64; limits::SECONDS];
    numbers::column(readings, false, &mut powers);
    numbers::column(readings, true, &mut frequencies);
    let before = numbers::first_four(earlier);
    settle_bands(
        hour,
        terms,
        reference,
        shift,
        state,
        bands,
        before,
        &powers,
        &frequencies,
        scores,
    )
}

// The same by its bands as pairs.
fn settle_bands(
    hour: Hour,
    terms: Terms,
    reference: Millihertz,
    shift: Shift,
    state: EventState,
    bands: &[i64],
    before: Earlier,
    powers: &[i64],
    frequencies: &[i64],
    scores: &mut [u8],
) -> Settled
    requires { before.count ≤ length before.scores }
    ensures answers { result ≡ ended_by hour state (hour_from powers.now frequencies.now terms reference (service_of hour shift) (column bands.now 0 (pairs_in (length bands.now))) (column bands.now 1 (pairs_in (length bands.now))) (taken before)) (length scores.old) }
    ensures leaves { scores.new ≡ left_by hour state (hour_from powers.now frequencies.now terms reference (service_of hour shift) (column bands.now 0 (pairs_in (length bands.now))) (column bands.now 1 (pairs_in (length bands.now))) (taken before)) scores.old }
{
    let mut thresholds = [0i64; 100];
    let mut factors = [0i64; 100];
    numbers::column(bands, false, &mut thresholds);
    numbers::column(bands, true, &mut factors);
    let n = pairs_in(bands.len());
    settle_kind(
        hour,
        powers,
        frequencies,
        terms,
        reference,
        shift,
        state,
        &thresholds[..n],
        &factors[..n],
        &before.scores[..before.count],
        scores,
    )
}

// How many pairs are taken of so many numbers.
#[tactic(auto, unfolding(crate::specs::Inner::pairs_in))]
fn pairs_in(numbers: usize) -> usize
    ensures is { result ≡ pairs_in numbers }
    ensures most { result ≤ 100 }
{
    (numbers / 2).min(100)
}

// Settles an hour of any kind; sReg reads no reference, what is shifted is read for E-dReg alone, the state for sReg
// alone.
fn settle_kind(
    hour: Hour,
    powers: &[i64],
    frequencies: &[i64],
    terms: Terms,
    reference: Millihertz,
    shift: Shift,
    state: EventState,
    thresholds: &[i64],
    factors: &[i64],
    earlier: &[u8],
    scores: &mut [u8],
) -> Settled
    ensures answers { result ≡ ended_by hour state (hour_from powers.now frequencies.now terms reference (service_of hour shift) thresholds.now factors.now earlier.now) (length scores.old) }
    ensures leaves { scores.new ≡ left_by hour state (hour_from powers.now frequencies.now terms reference (service_of hour shift) thresholds.now factors.now earlier.now) scores.old }
{
    match hour {
        Hour::Dreg => stateless(hour::dreg_hour(
            powers,
            frequencies,
            terms,
            reference,
            thresholds,
            factors,
            earlier,
            scores,
        )),
        Hour::Edreg => stateless(hour::hour(
            powers,
            frequencies,
            terms,
            reference,
            shift,
            thresholds,
            factors,
            earlier,
            scores,
        )),
        Hour::Sreg => sreg_hour::sreg_hour(
            powers,
            frequencies,
            terms,
            thresholds,
            factors,
            earlier,
            state,
            scores,
        ),
    }
}

// An hour that ends in no state of its own.
fn stateless(settled: Settlement) -> Settled
    ensures { result ≡ stateless settled }
{
    Settled {
        hour: settled,
        state: EventState::Outside,
    }
}

// How many numbers stand before the prices: an sReg hour has no reference.
fn prices_at(hour: Hour) -> usize
    ensures is { result ≡ prices_at hour }
    ensures most { result ≤ 2 }
{
    match hour {
        Hour::Dreg | Hour::Edreg => 2,
        Hour::Sreg => 1,
    }
}

fn terms_of(hour: Hour, numbers: [i64; 12]) -> Terms
    ensures { result ≡ terms_of hour numbers }
{
    let n = prices_at(hour);
    Terms {
        capacity: Kilowatts(numbers[0]),
        clearing: numbers[n],
        performance: numbers[n + 1],
    }
}

#[tactic(auto, unfolding(crate::specs::Hours::reference_of))]
fn reference_of(hour: Hour, numbers: [i64; 12]) -> Millihertz
    ensures { result ≡ reference_of hour numbers }
{
    match hour {
        Hour::Dreg | Hour::Edreg => Millihertz(numbers[1]),
        Hour::Sreg => Millihertz(limits::NOMINAL),
    }
}

fn shift_of(numbers: [i64; 12]) -> Shift
    ensures { result ≡ shift_of numbers }
{
    Shift {
        discharge: numbers[4],
        charge: numbers[5],
        targets: [numbers[6], numbers[7], numbers[8], numbers[9], numbers[10]],
    }
}
