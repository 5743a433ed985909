// The questions that print a run: a quarter's powers, an hour's scores.
#![tactic(auto)]

ghost use Rattle.std.specs.Prelude.{◌≡◌, map, pos, length};
ghost use Rattle.units.specs.Limits.{seconds_of_hour};
ghost use Rattle.hours.specs.Hours.{hour_numbers, scores_reply};
ghost use Rattle.series.specs.Series.{ramp_reply, series_reply};
ghost use Rattle.series.specs.Inner.{ran_of, ran_left};

use units::{Kilowatts, limits};
use words::{Hour, Series};

// How many fields an answer has; or the number of a refusal, and none.
#[derive(Clone, Copy)]
pub struct Ran {
    pub refusal: u8,
    pub count: usize,
}

// THE FAMILY: fills a lent run from its start with the fields of an answer; or refuses, and leaves it as it was.
pub fn answer(
    asks: Series,
    head: [i64; 12],
    bands: &[i64],
    counted: bool,
    earlier: &[i64],
    readings: &[i64],
    run: &mut [i64; limits::SECONDS],
) -> Ran
    ensures answers { result ≡ ran_of (series_reply asks head (hour_numbers head bands.now counted earlier.now readings.now)) }
    ensures leaves { run.new ≡ ran_left (series_reply asks head (hour_numbers head bands.now counted earlier.now readings.now)) run.old }
{
    match asks {
        Series::Ramp => ramp(head, run),
        Series::DregScores => scores(Hour::Dreg, head, bands, counted, earlier, readings, run),
        Series::EdregScores => scores(Hour::Edreg, head, bands, counted, earlier, readings, run),
        Series::SregScores => scores(Hour::Sreg, head, bands, counted, earlier, readings, run),
    }
}

// A quarter's powers.
fn ramp(head: [i64; 12], run: &mut [i64]) -> Ran
    requires { length run.old ≡ seconds_of_hour }
    ensures answers { result ≡ ran_of (ramp_reply head) }
    ensures leaves { run.new ≡ ran_left (ramp_reply head) run.old }
{
    let (last, target) = (Kilowatts(head[0]), Kilowatts(head[1]));
    match ramp::ramp(last, target, &mut run[..limits::QUARTER]) {
        Ok(()) => Ran {
            refusal: 0,
            count: limits::QUARTER,
        },
        Err(refusal) => Ran {
            refusal: refusal.number(),
            count: 0,
        },
    }
}

// An hour's scores.
fn scores(
    hour: Hour,
    head: [i64; 12],
    bands: &[i64],
    counted: bool,
    earlier: &[i64],
    readings: &[i64],
    run: &mut [i64],
) -> Ran
    requires { length run.old ≡ seconds_of_hour }
    ensures answers { result ≡ ran_of (scores_reply hour (hour_numbers head bands.now counted earlier.now readings.now)) }
    ensures leaves { run.new ≡ ran_left (scores_reply hour (hour_numbers head bands.now counted earlier.now readings.now)) run.old }
{
    let mut scores = [0u8; limits::SECONDS];
    let settled = hours::settle(hour, head, bands, counted, earlier, readings, &mut scores);
    if settled.refusal != 0 {
        return Ran {
            refusal: settled.refusal,
            count: 0,
        };
    }
    widen(&scores, run);
    Ran {
        refusal: 0,
        count: limits::SECONDS,
    }
}

// Bytes as numbers.
fn widen(bytes: &[u8], run: &mut [i64])
    requires { length run.old ≡ length bytes.now }
    ensures { run.new ≡ map pos bytes.now }
{
    for (i, byte) in bytes.iter().enumerate() {
        run[i] = i64::from(*byte);
    }
}
