// Runs the papers' figures of whole hours: their fees, months of them, hours by their readings, joint calls; and those
// of sReg hours, their events and the states that they are handed.
// crates/figures_hours/stdout has what the papers print.
#![tactic(auto)]

mod earlier_cases;
mod fees_cases;
mod hour_cases;
mod joint_cases;
mod month_cases;
mod moved_cases;
mod readings;
mod refused_cases;
mod sreg_cases;
mod sreg_refused;

use std::io;

fn main(rt: HostRuntime) -> io::Result<()> {
    fees_cases::of_capacity(&rt)?;
    fees_cases::quality_parts(&rt)?;
    fees_cases::of_energy(&rt)?;
    fees_cases::of_losses(&rt)?;
    fees_cases::refused_losses(&rt)?;
    month_cases::march(&rt)?;
    month_cases::april(&rt)?;
    month_cases::january(&rt)?;
    hour_cases::dreg_hours(&rt)?;
    hour_cases::shift_hours(&rt)?;
    refused_cases::hours(&rt)?;
    joint_cases::joint(&rt)?;
    earlier_cases::hours(&rt)?;
    earlier_cases::refused(&rt)?;
    earlier_cases::in_a_row(&rt)?;
    earlier_cases::joint(&rt)?;
    moved_cases::hours(&rt)?;
    moved_cases::refused(&rt)?;
    moved_cases::joint(&rt)?;
    sreg_cases::table_2(&rt)?;
    sreg_cases::ends(&rt)?;
    sreg_cases::in_a_row(&rt)?;
    sreg_refused::hours(&rt)?;
    sreg_refused::joint(&rt)
}
