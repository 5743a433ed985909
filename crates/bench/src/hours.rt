// The hours, one after the other. Before each, one power is drawn anew, so that no hour is the one before; its first
// windows look back into the last scores that the hour before left, and before the first hour into zeros.
use crate::readings::Rule;
use crate::{chance, readings, sums};
use hour::{Settlement, Shift, Terms};
use units::{Kilowatts, Millihertz, limits};

// Document 01's list S.
pub const THRESHOLDS: [i64; 7] = [95, 94, 93, 92, 91, 70, 0];

pub const FACTORS: [i64; 7] = [10, 8, 6, 4, 2, 0, -10];

// No transfer.
pub(crate) fn dreg(capacity: u64, reference: u64, count: u64) -> u64 {
    run(false, capacity, reference, [0; 5], count)
}

// Every quarter ramps, up and down.
pub(crate) fn edreg(capacity: u64, reference: u64, count: u64) -> u64 {
    let targets = [2_000, -3_000, 5_000, -8_000, 4_000];
    run(true, capacity, reference, targets, count)
}

fn run(shifting: bool, capacity: u64, reference: u64, targets: [i64; 5], count: u64) -> u64 {
    let mut powers = [0; limits::SECONDS];
    let mut frequencies = [0; limits::SECONDS];
    let mut transfers = [0; limits::SECONDS];
    let mut scores = [0u8; limits::SECONDS];
    let _ = ramp::plan(&targets, &mut transfers);
    readings::fill_powers(&mut powers, capacity, &transfers);
    readings::fill(&mut frequencies, Rule::Wandering, 1);
    hours(
        shifting,
        &mut powers,
        &frequencies,
        &transfers,
        capacity,
        terms_of(capacity),
        Millihertz((reference % 1_000_000) as i64),
        shift_of(targets),
        &mut scores,
        count,
    )
}

fn hours(
    shifting: bool,
    powers: &mut [i64],
    frequencies: &[i64],
    transfers: &[i64],
    capacity: u64,
    terms: Terms,
    reference: Millihertz,
    shift: Shift,
    scores: &mut [u8],
    count: u64,
) -> u64 {
    let mut x = 2;
    let mut sum = 0;
    for n in 0..count {
        x = chance::next(x);
        redraw(powers, n, x, capacity, transfers);
        sum = with_hour(
            sum,
            shifting,
            powers,
            frequencies,
            terms,
            reference,
            shift,
            scores,
        );
    }
    sums::with_scores(sum, scores)
}

fn redraw(powers: &mut [i64], n: u64, x: u64, capacity: u64, transfers: &[i64]) {
    let place = (n % limits::SECONDS as u64) as usize;
    if place < powers.len() {
        let p = readings::drawn(place, x, capacity, transfers);
        powers[place] = p;
    }
}

// The check sum with an hour more.
fn with_hour(
    sum: u64,
    shifting: bool,
    powers: &[i64],
    frequencies: &[i64],
    terms: Terms,
    reference: Millihertz,
    shift: Shift,
    scores: &mut [u8],
) -> u64 {
    let earlier = last_three(scores);
    let s = settled(
        shifting,
        powers,
        frequencies,
        terms,
        reference,
        shift,
        &earlier,
        scores,
    );
    sums::with_settlement(sum, s)
}

// The last three scores, and zeros where there are fewer.
pub(crate) fn last_three(scores: &[u8]) -> [u8; 3] {
    match scores {
        [.., oldest, middle, newest] => [*oldest, *middle, *newest],
        _ => [0; 3],
    }
}

fn settled(
    shifting: bool,
    powers: &[i64],
    frequencies: &[i64],
    terms: Terms,
    reference: Millihertz,
    shift: Shift,
    earlier: &[u8],
    scores: &mut [u8],
) -> Settlement {
    if shifting {
        return hour::hour(
            powers,
            frequencies,
            terms,
            reference,
            shift,
            &THRESHOLDS,
            &FACTORS,
            earlier,
            scores,
        );
    }
    hour::dreg_hour(
        powers,
        frequencies,
        terms,
        reference,
        &THRESHOLDS,
        &FACTORS,
        earlier,
        scores,
    )
}

// Prices are hundredths of a dollar.
pub(crate) fn terms_of(capacity: u64) -> Terms {
    Terms {
        capacity: Kilowatts((capacity % 1_000_000) as i64),
        clearing: 44_000,
        performance: 35_000,
    }
}

fn shift_of(targets: [i64; 5]) -> Shift {
    Shift {
        discharge: 50_000,
        charge: 30_000,
        targets,
    }
}
