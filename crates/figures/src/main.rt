// Runs the papers' figures of one rule or of the ledger that are not theorems; crates/figures/stdout has what the
// papers print.
#![tactic(auto)]

mod bands_cases;
mod curve_cases;
mod ledger_cases;
mod ramp_cases;
mod reached_cases;
mod records_cases;
mod score_cases;

use std::io;

fn main(rt: HostRuntime) -> io::Result<()> {
    curve_cases::step_test(&rt)?;
    curve_cases::corners(&rt)?;
    curve_cases::limits(&rt)?;
    curve_cases::moved(&rt)?;
    curve_cases::conversion(&rt)?;
    ledger_cases::a_month(&rt)?;
    ledger_cases::limits(&rt)?;
    ledger_cases::two_fees(&rt)?;
    ledger_cases::largest(&rt)?;
    ledger_cases::forged(&rt)?;
    ledger_cases::in_place(&rt)?;
    ramp_cases::table(&rt)?;
    ramp_cases::refused(&rt)?;
    score_cases::seconds(&rt)?;
    score_cases::limits(&rt)?;
    score_cases::moved(&rt)?;
    score_cases::rates(&rt)?;
    score_cases::earlier_rates(&rt)?;
    reached_cases::reached(&rt)?;
    bands_cases::rates(&rt)?;
    bands_cases::lists(&rt)?;
    records_cases::records(&rt)
}
