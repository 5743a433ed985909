// The paper's quantities as types of their own, and the one conversion between them.
#![tactic(auto)]

ghost use Rattle.std.specs.Prelude.{◌≡◌};
ghost use Rattle.units.specs.Units.{in_kilowatts};

pub use refusal::Refusal;

pub mod limits;
mod refusal;
pub mod refusals;

// The least award.
const LEAST_AWARD: i64 = -limits::AWARD;

// Power and capacity; discharge is positive.
#[derive(Clone, Copy)]
pub struct Kilowatts(pub i64);

#[derive(Clone, Copy)]
pub struct Megawatts(pub i64);

// Frequency.
#[derive(Clone, Copy)]
pub struct Millihertz(pub i64);

// An amount.
#[derive(Clone, Copy)]
pub struct Dollars(pub i64);

// The one way from megawatts to kilowatts: times 1,000, from -100 to 100; others are refused with 10.
#[tactic(auto, using(whole::proofs::Signed::inside), unfolding(crate::specs::Units::in_kilowatts))]
pub fn to_kilowatts(award: Megawatts) -> Result<Kilowatts, Refusal>
    ensures { result ≡ in_kilowatts award }
{
    if !whole::within(award.0, LEAST_AWARD, limits::AWARD) {
        return Err(Refusal::BadTransfer);
    }
    Ok(Kilowatts(award.0 * 1000))
}
