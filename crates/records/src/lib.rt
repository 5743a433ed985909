// The quality bands as a lent slice of records: gathered into two columns, which the rule on number slices takes.
#![tactic(auto)]

ghost use Rattle.std.specs.Prelude.{◌≡◌};
ghost use Rattle.units.specs.Refusals.{result_by};
ghost use Rattle.records.specs.Records.{records_refusal, records_answer};
ghost use Rattle.records.specs.Inner.{none, next, gathered, refusal_in, gathered_answer};

use units::{Refusal, limits};

// What stands for any number of records above 16.
const TOO_MANY: usize = limits::BANDS + 1;

// A record of the list: from this rate on, this factor in tenths.
#[derive(Clone, Copy)]
pub struct Band {
    pub threshold: i64,
    pub factor: i64,
}

// The records of a slice as two columns, and how many there are.
#[derive(Drop)]
struct Columns {
    thresholds: [i64; limits::BANDS],
    factors: [i64; limits::BANDS],
    count: usize,
}

// 5 for bands against the rule.
pub fn check_bands(bands: &[Band]) -> Result<(), Refusal>
    ensures { result ≡ result_by (records_refusal bands.now) tt }
{
    check_columns(columns_of(bands))
}

// The factor of the first record whose threshold is at most the rate; or 5 or 4.
pub fn factor_of(bands: &[Band], rate: u8) -> Result<i64, Refusal>
    ensures { result ≡ records_answer bands.now rate }
{
    factor_in(columns_of(bands), rate)
}

// Whether bands fit does not go by a rate, so that any rate tells it.
#[tactic(auto, unfolding(crate::specs::Inner::refusal_in))]
fn check_columns(columns: Columns) -> Result<(), Refusal>
    ensures { result ≡ refusal_in columns }
{
    factor_in(columns, 0)?;
    Ok(())
}

#[tactic(auto, unfolding(crate::specs::Inner::gathered_answer))]
fn factor_in(columns: Columns, rate: u8) -> Result<i64, Refusal>
    ensures { result ≡ gathered_answer columns rate }
{
    let n = columns.count;
    if limits::BANDS < n {
        return Err(Refusal::BadBands);
    }
    bands::factor(&columns.thresholds[..n], &columns.factors[..n], rate)
}

// The one pass over a slice of records.
fn columns_of(bands: &[Band]) -> Columns
    ensures { result ≡ gathered none bands.now }
{
    let mut columns = none();
    for band in bands {
        columns = next(columns, *band);
    }
    columns
}

#[tactic(auto, unfolding(crate::specs::Inner::none))]
fn none() -> Columns
    ensures { result ≡ none }
{
    Columns {
        thresholds: [0; limits::BANDS],
        factors: [0; limits::BANDS],
        count: 0,
    }
}

// The columns with one record more.
#[tactic(auto, unfolding(crate::specs::Inner::next))]
fn next(columns: Columns, band: Band) -> Columns
    ensures { result ≡ next columns band }
{
    let at = columns.count;
    let mut thresholds = columns.thresholds;
    let mut factors = columns.factors;
    if at < limits::BANDS {
        thresholds[at] = band.threshold;
        factors[at] = band.factor;
        return Columns {
            thresholds,
            factors,
            count: at + 1,
        };
    }
    Columns {
        thresholds,
        factors,
        count: TOO_MANY,
    }
}
