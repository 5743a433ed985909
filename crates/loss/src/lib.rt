// The loss fee of a month.
#![tactic(auto)]

ghost use Rattle.std.specs.Prelude.{◌≡◌};
ghost use Rattle.units.specs.Refusals.{result_by};
ghost use Rattle.loss.specs.Loss.{at_least_zero, percent, loss_refusal, added, basic_fee, excess_fee, loss_answer};

use units::{Dollars, Refusal, limits};

// A dollar by percents and ten-thousandths, and in fifths besides.
const PARTS: i64 = 100 * 10_000;

const FIFTHS: i64 = 5 * PARTS;

// The loss fee, and its parts.
#[derive(Clone, Copy)]
pub struct LossFee {
    pub basic: Dollars,
    pub excess: Dollars,
    pub total: Dollars,
}

// The loss fee by the energy charged and discharged in kWh, the voltage in V and the average cost in ten-thousandths of
// a dollar; or 15 or 3.
#[tactic(auto, using(units::proofs::Numbered::let_through), unfolding(crate::specs::Loss::loss_answer))]
pub fn loss_fee(charged: i64, discharged: i64, voltage: i64, cost: i64) -> Result<LossFee, Refusal>
    ensures { result ≡ loss_answer charged discharged voltage cost }
{
    loss_refusal(charged, discharged, voltage, cost)?;
    Ok(losses(charged, discharged, voltage, cost))
}

#[tactic(auto, unfolding(crate::specs::Loss::loss_refusal))]
fn loss_refusal(charged: i64, discharged: i64, voltage: i64, cost: i64) -> Result<(), Refusal>
    ensures { result ≡ result_by (loss_refusal charged discharged voltage cost) tt }
{
    let energies = whole::within(charged, 0, limits::ENERGY)
        & whole::within(discharged, 0, limits::ENERGY);
    if !(energies & whole::within(voltage, 1, limits::VOLTAGE)) {
        return Err(Refusal::BadEnergy);
    }
    if !whole::within(cost, 0, limits::COST) {
        return Err(Refusal::BadMoney);
    }
    Ok(())
}

fn losses(charged: i64, discharged: i64, voltage: i64, cost: i64) -> LossFee
    requires { loss_refusal charged discharged voltage cost ≡ 0 }
    ensures { result ≡ added (basic_fee charged discharged voltage cost) (excess_fee charged discharged voltage cost) }
{
    let net = at_least_zero(charged - discharged);
    let above = at_least_zero(net * 5 - charged);
    let price = percent(voltage) * cost;
    let basic = whole::nearest(net * price, PARTS);
    let excess = whole::nearest(above * price * 2, FIFTHS);
    LossFee {
        basic: Dollars(basic),
        excess: Dollars(excess),
        total: Dollars(basic + excess),
    }
}

#[tactic(auto, unfolding(crate::specs::Loss::at_least_zero))]
fn at_least_zero(z: i64) -> i64
    ensures { result ≡ at_least_zero z }
{
    z.max(0)
}

// The factor of a voltage, in percent.
#[tactic(auto, unfolding(crate::specs::Loss::percent))]
fn percent(voltage: i64) -> i64
    ensures { result ≡ percent voltage }
{
    if voltage < 11_400 {
        return 108;
    }
    if voltage < 69_000 {
        return 105;
    }
    104
}
