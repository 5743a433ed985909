// The power curve (document 001, table 1): a frequency's upper and lower power in percent of capacity, by a reference
// that may be moved.
#![tactic(auto)]

ghost use Rattle.std.specs.Prelude.{◌≡◌};
ghost use Rattle.units.specs.Refusals.{result_by};
ghost use Rattle.curve.specs.Curve.{curve_refusal, curve_at, bounds_by, pairs_of};
ghost use Rattle.curve.specs.Moved.{CurveFits};
ghost use Rattle.curve.specs.Inner.{place_past};

use units::{Millihertz, Refusal, limits};

mod table;

// How far from the reference the outer corners are.
pub const REACH: i64 = 250;

// From the first to the last, and the place of the last pair.
const SPAN: i64 = 2 * REACH;

const LAST_PLACE: usize = SPAN as usize;

// An upper and a lower bound for each of its places.
const ENTRIES: usize = 4 * REACH as usize + 2;

// The two bounds of a frequency.
#[derive(Clone, Copy)]
pub struct Bounds {
    pub upper: i64,
    pub lower: i64,
}

// The curve at a frequency by a reference, with which every corner moves: the table at the frequency moved back, below
// it its first pair, above it its last; or 19 or 4.
#[tactic(auto, using(crate::proofs::Limits::curve_fit, units::proofs::Numbered::let_through), unfolding(crate::specs::Curve::curve_at))]
pub fn curve(frequency: Millihertz, reference: Millihertz) -> Result<Bounds, Refusal>
    ensures { result ≡ curve_at frequency reference }
{
    refusal(frequency, reference)?;
    Ok(bounds_at(frequency, reference))
}

// 19, 4.
#[tactic(auto, unfolding(crate::specs::Curve::curve_refusal))]
fn refusal(frequency: Millihertz, reference: Millihertz) -> Result<(), Refusal>
    ensures { result ≡ result_by (curve_refusal frequency reference) tt }
{
    if !whole::within(reference.0, limits::LEAST_REFERENCE, limits::MOST_REFERENCE) {
        return Err(Refusal::BadReference);
    }
    if !whole::within(frequency.0, limits::LEAST_FREQUENCY, limits::MOST_FREQUENCY) {
        return Err(Refusal::BadReading);
    }
    Ok(())
}

// The place among the table's pairs that is read so many millihertz past the first corner: the nearer end outside.
#[tactic(auto, using(crate::proofs::Laws::placing))]
pub fn place(steps: i64) -> usize
    ensures { result ≡ place_past steps }
{
    if steps < 0 {
        return 0;
    }
    if SPAN < steps {
        return LAST_PLACE;
    }
    steps as usize
}

// The table: the upper and the lower bound of each millihertz from the first corner to the last, one pair after the
// other. A run of seconds makes it once. In bytes a pair's place takes no shift.
pub fn pairs() -> [i8; ENTRIES]
    ensures { result ≡ pairs_of }
{
    table::PAIRS
}

// The pair of a frequency and a reference that are not refused.
fn bounds_at(frequency: Millihertz, reference: Millihertz) -> Bounds
    requires { CurveFits frequency reference }
    ensures { result ≡ bounds_by reference.0 frequency.0 }
{
    let pairs = pairs();
    let f = frequency.0;
    let around = reference.0;
    let first = around - REACH;
    let past = f - first;
    let k = 2 * place(past);
    let upper = pairs[k] as i64;
    let lower = pairs[k + 1] as i64;
    Bounds { upper, lower }
}
