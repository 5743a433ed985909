// The benchmarks: ledger calls in place, in order and by chance, and by chance on a month by value; frames read from
// lines in memory and frames written; whole hours, dReg, E-dReg, and sReg by a frequency that wanders and by one that
// lies anywhere. Standard input has thirteen numbers: the month's days, 1 for a closed month and 0 for an open one, how
// many calls of each of the three ways, how many frames are read and written, the capacity in kW and the reference in
// mHz, and how many hours of each of the four kinds. For each count that is not 0, the count and a check sum are
// printed. The peers are in bench/.
#![tactic(auto)]

mod calls;
mod chance;
mod draw;
mod frames;
mod hours;
mod lines;
mod readings;
mod report;
mod sreg_hours;
mod sums;

use crate::readings::Rule;
use std::io;
use std::io::Read;

fn main(rt: HostRuntime) -> io::Result<()> {
    let mut buffer = [0u8; 128];
    let n = rt.stdin().read(&mut buffer)?;
    let input = &buffer[..n];
    ledger_calls(&rt, input)?;
    frames_both_ways(&rt, input)?;
    whole_hours(&rt, input)?;
    whole_sreg_hours(&rt, input)
}

fn ledger_calls(rt: &impl Print, input: &[u8]) -> io::Result<()> {
    let days = report::days(report::count(input, 0));
    let closed = report::count(input, 1) == 1;
    let ordered = report::count(input, 2);
    let placed = report::count(input, 3);
    let valued = report::count(input, 4);
    if ordered != 0 {
        report::line(
            rt,
            "in order, in place",
            ordered,
            calls::in_place(days, closed, true, ordered),
        )?;
    }
    if placed != 0 {
        report::line(
            rt,
            "by chance, in place",
            placed,
            calls::in_place(days, closed, false, placed),
        )?;
    }
    if valued != 0 {
        report::line(
            rt,
            "by chance, by value",
            valued,
            calls::by_value(days, closed, valued),
        )?;
    }
    Ok(())
}

fn frames_both_ways(rt: &impl Print, input: &[u8]) -> io::Result<()> {
    let reads = report::count(input, 5);
    let writes = report::count(input, 6);
    if reads != 0 {
        report::line(rt, "read", reads, frames::read_over(reads))?;
    }
    if writes != 0 {
        report::line(rt, "written", writes, frames::write(writes))?;
    }
    Ok(())
}

fn whole_hours(rt: &impl Print, input: &[u8]) -> io::Result<()> {
    let capacity = report::count(input, 7);
    let reference = report::count(input, 8);
    let plain = report::count(input, 9);
    let shifting = report::count(input, 10);
    if plain != 0 {
        report::line(rt, "dReg", plain, hours::dreg(capacity, reference, plain))?;
    }
    if shifting != 0 {
        report::line(
            rt,
            "E-dReg",
            shifting,
            hours::edreg(capacity, reference, shifting),
        )?;
    }
    Ok(())
}

fn whole_sreg_hours(rt: &impl Print, input: &[u8]) -> io::Result<()> {
    let capacity = report::count(input, 7);
    let wandering = report::count(input, 11);
    let by_chance = report::count(input, 12);
    if wandering != 0 {
        report::line(
            rt,
            "sReg",
            wandering,
            sreg_hours::run(Rule::Wandering, capacity, wandering),
        )?;
    }
    if by_chance != 0 {
        report::line(
            rt,
            "sReg, by chance",
            by_chance,
            sreg_hours::run(Rule::ByChance, capacity, by_chance),
        )?;
    }
    Ok(())
}
