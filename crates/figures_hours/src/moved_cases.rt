// Hours by a moved reference.
use crate::readings::Rule;
use crate::{hour_cases, joint_cases, readings};
use hour::Terms;
use month::Month;
use std::io;
use units::{Kilowatts, limits};

const TARGETS: [i64; 5] = [-3_000, 3_000, 4_000, 2_001, 5_000];

// Frequencies over the whole curve: an hour whose frequencies all move with the reference scores as the old one, and
// one whose frequencies stay does not.
pub(crate) fn hours(rt: &impl Print) -> io::Result<()> {
    println!(rt; "document 02, #107: hours by a moved reference")?;
    waver(rt, "dReg, as it is", false, 59_700, 60_000)?;
    waver(rt, "dReg, moved by -500", false, 59_200, 59_500)?;
    waver(rt, "dReg, moved by 300", false, 60_000, 60_300)?;
    waver(rt, "dReg, the reference alone", false, 59_700, 59_500)?;
    waver(rt, "E-dReg, as it is", true, 59_700, 60_000)?;
    waver(rt, "E-dReg, moved by -500", true, 59_200, 59_500)?;
    waver(rt, "E-dReg, moved by 500", true, 60_200, 60_500)?;
    waver(rt, "E-dReg, the reference alone", true, 59_700, 60_500)
}

// An hour that wavers over 601 millihertz, from the first on; what is shifted follows its plan.
fn waver(
    rt: &impl Print,
    label: &str,
    shifting: bool,
    first: u32,
    reference: i64,
) -> io::Result<()> {
    let mut powers = [0i64; limits::SECONDS];
    if shifting {
        readings::follow(&mut powers, &TARGETS);
        over(rt, label, shifting, &powers, first, reference)?;
        return Ok(());
    }
    readings::fill(&mut powers, 0, limits::SECONDS, Rule::Turns(2_000, -2_500));
    over(rt, label, shifting, &powers, first, reference)
}

fn over(
    rt: &impl Print,
    label: &str,
    shifting: bool,
    powers: &[i64],
    first: u32,
    reference: i64,
) -> io::Result<()> {
    let mut frequencies = [0i64; limits::SECONDS];
    readings::fill(&mut frequencies, 0, limits::SECONDS, Rule::Waver(first));
    let terms = hour_cases::terms();
    around(rt, label, shifting, powers, &frequencies, terms, reference)
}

// A dReg or an E-dReg hour.
fn around(
    rt: &impl Print,
    label: &str,
    shifting: bool,
    powers: &[i64],
    frequencies: &[i64],
    terms: Terms,
    reference: i64,
) -> io::Result<()> {
    let none = [0u8; 0];
    let mut scores = [7u8; limits::SECONDS];
    if shifting {
        let shift = hour_cases::shift_of(TARGETS);
        hour_cases::work(
            rt,
            label,
            powers,
            frequencies,
            terms,
            reference,
            shift,
            &none,
            &mut scores,
        )?;
        return Ok(());
    }
    hour_cases::dreg_work(
        rt,
        label,
        powers,
        frequencies,
        terms,
        reference,
        &none,
        &mut scores,
    )
}

pub(crate) fn refused(rt: &impl Print) -> io::Result<()> {
    println!(rt; "refused references: 19 after 2 and before 3")?;
    attempt(rt, "least", 10_000, 59_500, 43_000, 0)?;
    attempt(rt, "most", 10_000, 60_500, 43_000, 0)?;
    attempt(rt, "below", 10_000, 59_499, 43_000, 0)?;
    attempt(rt, "above", 10_000, 60_501, 43_000, 0)?;
    attempt(rt, "and capacity 0", 0, 60_501, 43_000, 0)?;
    attempt(rt, "and a price", 10_000, 60_501, -1, 0)?;
    attempt(rt, "and a power", 10_000, 60_501, 43_000, 200_001)?;
    attempt(rt, "i64", 10_000, i64::MIN, 43_000, 0)
}

// A dReg and an E-dReg hour with this capacity, reference, clearing price and last power.
fn attempt(
    rt: &impl Print,
    label: &str,
    capacity: i64,
    reference: i64,
    clearing: i64,
    last: i64,
) -> io::Result<()> {
    let mut powers = [0i64; limits::SECONDS];
    let frequencies = [60_000i64; limits::SECONDS];
    readings::stretch(&mut powers, limits::SECONDS - 1, limits::SECONDS, last);
    let terms = Terms {
        capacity: Kilowatts(capacity),
        clearing,
        performance: 35_000,
    };
    around(rt, label, false, &powers, &frequencies, terms, reference)?;
    around(rt, label, true, &powers, &frequencies, terms, reference)
}

// On day 3.
pub(crate) fn joint(rt: &impl Print) -> io::Result<()> {
    println!(rt; "joint calls by a moved reference")?;
    let m = joint_cases::opened(30);
    let m = join(rt, "as it is", 59_900, 60_000, m, 10)?;
    let m = join(rt, "moved by -500", 59_400, 59_500, m, 11)?;
    let m = join(rt, "the reference alone", 59_900, 59_500, m, 12)?;
    let m = join(rt, "above", 59_900, 60_501, m, 13)?;
    join(rt, "above, place filled", 59_900, 60_501, m, 10)?;
    Ok(())
}

// A steady hour at 35 percent.
fn join(
    rt: &impl Print,
    label: &str,
    frequency: i64,
    reference: i64,
    m: Month,
    hour: u8,
) -> io::Result<Month> {
    let none = [0u8; 0];
    let powers = [3_500i64; limits::SECONDS];
    let frequencies = [frequency; limits::SECONDS];
    joint_cases::join_after(
        rt,
        label,
        &powers,
        &frequencies,
        reference,
        0,
        &none,
        m,
        3,
        hour,
    )
}
