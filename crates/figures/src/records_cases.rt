// The quality bands as records: the functions that take a lent slice of structs.
ghost use Rattle.std.specs.Prelude.{◌≡◌, ◌≤◌, take};
ghost use Rattle.units.specs.Refusals.{result_by};
ghost use Rattle.records.specs.Records.{records_refusal, records_answer};

use records::Band;
use std::io;
use units::Refusal;

// What the two functions answer: the list's check, and the factor of a rate.
#[derive(Drop)]
struct Told {
    check: Result<(), Refusal>,
    found: Result<i64, Refusal>,
}

pub(crate) fn records(rt: &impl Print) -> io::Result<()> {
    println!(rt; "records")?;
    of_list_s(rt, "list S", 7, 100)?;
    of_list_s(rt, "list S", 7, 95)?;
    of_list_s(rt, "list S", 7, 94)?;
    of_list_s(rt, "list S", 7, 70)?;
    of_list_s(rt, "list S", 7, 69)?;
    of_list_s(rt, "list S", 7, 0)?;
    of_list_s(rt, "list S", 7, 101)?;
    of_list_s(rt, "last not 0", 6, 95)?;
    of_list_s(rt, "none", 0, 95)?;
    changed(rt)
}

// The first n records of list S.
fn of_list_s(rt: &impl Print, label: &str, n: usize, rate: u8) -> io::Result<()>
    requires { n ≤ 17 }
{
    show(rt, label, list_s(), n, rate)
}

fn show(rt: &impl Print, label: &str, list: [Band; 17], n: usize, rate: u8) -> io::Result<()>
    requires { n ≤ 17 }
{
    let told = asked(list, n, rate);
    let check = match told.check {
        Ok(()) => 0,
        Err(refusal) => refusal.number(),
    };
    let (refusal, factor) = match told.found {
        Ok(factor) => (0, factor),
        Err(refusal) => (refusal.number(), 0),
    };
    println!(rt; "{label} {rate} {check} {refusal} {factor}")
}

// The first n records of a list, lent to both.
fn asked(list: [Band; 17], n: usize, rate: u8) -> Told
    requires { n ≤ 17 }
    ensures { result ≡ record { check = result_by (records_refusal (take n list)) tt; found = records_answer (take n list) rate } }
{
    let records = &list[..n];
    let check = records::check_bands(records);
    let found = records::factor_of(records, rate);
    Told { check, found }
}

// Document 01's list S, and ten records more.
fn list_s() -> [Band; 17] {
    let none = band(0, 0);
    let mut list = [none; 17];
    list[0] = band(95, 10);
    list[1] = band(94, 8);
    list[2] = band(93, 6);
    list[3] = band(92, 4);
    list[4] = band(91, 2);
    list[5] = band(70, 0);
    list[6] = band(0, -10);
    list
}

fn band(threshold: i64, factor: i64) -> Band {
    Band { threshold, factor }
}

fn changed(rt: &impl Print) -> io::Result<()> {
    let mut list = list_s();
    list[1] = band(95, 8);
    show(rt, "equal thresholds", list, 7, 94)?;
    let mut many = seventeen();
    show(rt, "seventeen", many, 17, 95)?;
    many[15] = band(0, -5);
    show(rt, "sixteen", many, 16, 69)
}

// Seventeen that fall to 0.
fn seventeen() -> [Band; 17] {
    let none = band(0, -6);
    let mut list = [none; 17];
    list[0] = band(97, 10);
    list[1] = band(96, 9);
    list[2] = band(95, 8);
    list[3] = band(94, 7);
    list[4] = band(93, 6);
    list[5] = band(92, 5);
    list[6] = band(91, 4);
    list[7] = band(90, 3);
    list[8] = band(80, 2);
    list[9] = band(70, 1);
    list[10] = band(60, 0);
    list[11] = band(50, -1);
    list[12] = band(40, -2);
    list[13] = band(30, -3);
    list[14] = band(20, -4);
    list[15] = band(10, -5);
    list
}
