// The power curve and the conversion.
use std::io;
use units::{Megawatts, Millihertz, limits};

pub(crate) fn step_test(rt: &impl Print) -> io::Result<()> {
    println!(rt; "document 002, table 1: the step test")?;
    first_steps(rt)?;
    last_steps(rt)
}

// Document 01's worked figures, the two ties among them.
pub(crate) fn corners(rt: &impl Print) -> io::Result<()> {
    println!(rt; "document 01: the curve")?;
    show(rt, "worked", 59_900)?;
    show(rt, "tie", 59_920)?;
    show(rt, "tie", 60_080)?;
    show(rt, "worked", 59_980)?;
    show(rt, "worked", 59_750)
}

pub(crate) fn limits(rt: &impl Print) -> io::Result<()> {
    println!(rt; "frequencies at and past the limits")?;
    show(rt, "least", 55_000)?;
    show(rt, "most", 65_000)?;
    show(rt, "below", 54_999)?;
    show(rt, "above", 65_001)?;
    show(rt, "zero", 0)?;
    show(rt, "i64", i64::MIN)?;
    show(rt, "i64", i64::MAX)
}

// The table's corners, moved with the reference; and references at and past the limits.
pub(crate) fn moved(rt: &impl Print) -> io::Result<()> {
    println!(rt; "document 02, #107: the curve by a moved reference")?;
    corners_up(rt)?;
    corners_down(rt)?;
    references(rt)
}

pub(crate) fn conversion(rt: &impl Print) -> io::Result<()> {
    println!(rt; "megawatts to kilowatts")?;
    convert(rt, 5)?;
    convert(rt, -8)?;
    convert(rt, 0)?;
    convert(rt, 100)?;
    convert(rt, -100)?;
    convert(rt, 101)?;
    convert(rt, -101)?;
    convert(rt, i64::MIN)?;
    convert(rt, i64::MAX)
}

// Document 002, table 1: F01 to F09.
fn first_steps(rt: &impl Print) -> io::Result<()> {
    show(rt, "F01", 60_010)?;
    show(rt, "F02", 59_990)?;
    show(rt, "F03", 60_020)?;
    show(rt, "F04", 59_980)?;
    show(rt, "F05", 60_070)?;
    show(rt, "F06", 59_930)?;
    show(rt, "F07", 60_140)?;
    show(rt, "F08", 59_860)?;
    show(rt, "F09", 60_200)
}

// A frequency, then refusal, upper and lower percent.
fn show(rt: &impl Print, label: &str, frequency: i64) -> io::Result<()> {
    print!(rt; "{label} {frequency}")?;
    bounds(rt, frequency, limits::NOMINAL)
}

// The six corners, moved by 300.
fn corners_up(rt: &impl Print) -> io::Result<()> {
    around(rt, "59.75 and 0.3", 60_050, 60_300)?;
    around(rt, "59.86 and 0.3", 60_160, 60_300)?;
    around(rt, "59.98 and 0.3", 60_280, 60_300)?;
    around(rt, "60.02 and 0.3", 60_320, 60_300)?;
    around(rt, "60.14 and 0.3", 60_440, 60_300)?;
    around(rt, "60.25 and 0.3", 60_550, 60_300)
}

// A frequency and a reference, then refusal, upper and lower percent.
fn around(rt: &impl Print, label: &str, frequency: i64, reference: i64) -> io::Result<()> {
    print!(rt; "{label} {frequency} {reference}")?;
    bounds(rt, frequency, reference)
}

// Refusal, upper and lower percent.
fn bounds(rt: &impl Print, frequency: i64, reference: i64) -> io::Result<()> {
    let (refusal, upper, lower) = match curve::curve(Millihertz(frequency), Millihertz(reference)) {
        Ok(bounds) => (0, bounds.upper, bounds.lower),
        Err(refusal) => (refusal.number(), 0, 0),
    };
    println!(rt; " {refusal} {upper} {lower}")
}

// And by -500.
fn corners_down(rt: &impl Print) -> io::Result<()> {
    around(rt, "59.75 less 0.5", 59_250, 59_500)?;
    around(rt, "59.86 less 0.5", 59_360, 59_500)?;
    around(rt, "59.98 less 0.5", 59_480, 59_500)?;
    around(rt, "60.02 less 0.5", 59_520, 59_500)?;
    around(rt, "60.14 less 0.5", 59_640, 59_500)?;
    around(rt, "60.25 less 0.5", 59_750, 59_500)
}

fn references(rt: &impl Print) -> io::Result<()> {
    around(rt, "most", 60_400, 60_500)?;
    around(rt, "least", 59_400, 59_500)?;
    around(rt, "below", 59_400, 59_499)?;
    around(rt, "above", 60_400, 60_501)?;
    around(rt, "above, and the frequency", 54_999, 60_501)?;
    around(rt, "the frequency", 54_999, 60_500)?;
    around(rt, "i64", i64::MIN, i64::MAX)
}

// And from F10 on.
fn last_steps(rt: &impl Print) -> io::Result<()> {
    show(rt, "F10", 59_800)?;
    show(rt, "F11", 60_250)?;
    show(rt, "F12", 59_750)?;
    show(rt, "F13", 60_300)?;
    show(rt, "F14", 59_700)?;
    show(rt, "F15", 60_400)?;
    show(rt, "F16", 59_600)?;
    show(rt, "F17", 60_500)?;
    show(rt, "F18", 59_500)
}

// A megawatt figure, then refusal and kilowatts.
fn convert(rt: &impl Print, figure: i64) -> io::Result<()> {
    let (refusal, power) = match units::to_kilowatts(Megawatts(figure)) {
        Ok(power) => (0, power.0),
        Err(refusal) => (refusal.number(), 0),
    };
    println!(rt; "MW {figure} {refusal} {power}")
}
