// The month ledger: the cases that a desk would try by hand.
use head::Head;
use month::Month;
use std::io;
use units::{Dollars, Refusal};

pub(crate) fn a_month(rt: &impl Print) -> io::Result<()> {
    println!(rt; "a month by hand")?;
    let m = posted(rt)?;
    let m = changed(rt, m)?;
    closed(rt, m)
}

// Days, hours, amounts and fees at and past their limits.
pub(crate) fn limits(rt: &impl Print) -> io::Result<()> {
    println!(rt; "the ledger at and past the limits")?;
    lengths(rt)?;
    let m = book(rt, "open 30", none(), Month::open(30))?;
    days_and_hours(rt, m)?;
    amounts(rt, m)?;
    loss_fees(rt, m)
}

// Document 01's loss example (document 02, #101): a basic fee set twice and an excess fee once, and both in a closed
// month.
pub(crate) fn two_fees(rt: &impl Print) -> io::Result<()> {
    println!(rt; "the two loss fees")?;
    let m = opened(31);
    let m = book(rt, "post", m, m.post(3, 10, Dollars(300_000)))?;
    let m = book(rt, "basic fee", m, m.set_basic_fee(Dollars(1)))?;
    let m = book(rt, "excess fee", m, m.set_excess_fee(Dollars(100_800)))?;
    read_fees(rt, m)?;
    let m = book(rt, "basic fee again", m, m.set_basic_fee(Dollars(151_200)))?;
    read_fees(rt, m)?;
    let m = book(rt, "close", m, m.close())?;
    let m = book(rt, "basic fee closed", m, m.set_basic_fee(Dollars(2)))?;
    let m = book(rt, "excess fee closed", m, m.set_excess_fee(Dollars(2)))?;
    read_fees(rt, m)
}

pub(crate) fn largest(rt: &impl Print) -> io::Result<()> {
    println!(rt; "the largest month")?;
    let most = full(1_000_000_000);
    book(
        rt,
        "most and the largest fees",
        dearest(most),
        dearest(most).set_excess_fee(Dollars(100_000_000_000)),
    )?;
    read_out(rt, most)?;
    let least = full(-1_000_000_000);
    book(
        rt,
        "least and the largest fees",
        dearest(least),
        dearest(least).set_excess_fee(Dollars(100_000_000_000)),
    )?;
    read_out(rt, least)
}

pub(crate) fn forged(rt: &impl Print) -> io::Result<()> {
    let mut m = opened(30);
    m.amounts[0] = 1;
    forge(rt, "forged: an amount in an empty place", m)?;
    let mut m = opened(30);
    m.marks[720] = true;
    forge(rt, "forged: a filled place past the month's end", m)?;
    let mut m = opened(30);
    m.days = 27;
    forge(rt, "forged: 27 days", m)?;
    let mut m = opened(30);
    m.basic = Dollars(-1);
    forge(rt, "forged: a basic fee below 0", m)?;
    let mut m = opened(30);
    m.excess = Dollars(100_000_000_001);
    forge(rt, "forged: an excess fee past the limit", m)?;
    let mut m = opened(30);
    m.marks[5] = true;
    m.amounts[5] = 1_000_000_001;
    forge(rt, "forged: an amount past the limit", m)?;
    forge(rt, "forged: what a refused open hands back", opened(0))
}

// Calls in place at any number given for a place, in a month of 28 days: one that no hour of the month has is refused.
pub(crate) fn in_place(rt: &impl Print) -> io::Result<()> {
    println!(rt; "in place, past the month")?;
    let mut marks = [false; units::limits::PLACES];
    let mut amounts = [0i64; units::limits::PLACES];
    let none = Head {
        days: 0,
        closed: false,
        basic: Dollars(0),
        excess: Dollars(0),
    };
    let head = board::open_in(28, &mut marks, &mut amounts).unwrap_or(none);
    post_at(rt, "first", head, &mut marks, &mut amounts, 0)?;
    post_at(rt, "last", head, &mut marks, &mut amounts, 671)?;
    post_at(rt, "past the month", head, &mut marks, &mut amounts, 672)?;
    post_at(rt, "last place", head, &mut marks, &mut amounts, 743)?;
    post_at(rt, "past every place", head, &mut marks, &mut amounts, 744)?;
    post_at(rt, "usize", head, &mut marks, &mut amounts, usize::MAX)?;
    print!(rt; "total")?;
    told(rt, board::total_in(head, &marks, &amounts))?;
    println!(rt; "")
}

// Document 01's sample: a post, a second one at the same hour, a loss fee.
fn posted(rt: &impl Print) -> io::Result<Month> {
    let m = book(rt, "open 31", none(), Month::open(31))?;
    let m = book(rt, "post", m, m.post(3, 10, Dollars(7_800)))?;
    let m = book(rt, "post again", m, m.post(3, 10, Dollars(6_280)))?;
    let m = book(rt, "basic fee", m, m.set_basic_fee(Dollars(8_658)))?;
    read_out(rt, m)?;
    Ok(m)
}

// A call's refusal, then the month total after it: of the month that it answers, or of the old one where it is refused.
fn book(
    rt: &impl Print,
    label: &str,
    old: Month,
    answer: Result<Month, Refusal>,
) -> io::Result<Month> {
    let (refusal, m) = match answer {
        Ok(next) => (0, next),
        Err(refusal) => (refusal.number(), old),
    };
    print!(rt; "{label} {refusal}")?;
    told(rt, m.total())?;
    println!(rt; "")?;
    Ok(m)
}

// A read-out's refusal, then its amount, 0 beside a refusal.
fn told(rt: &impl Print, answer: Result<Dollars, Refusal>) -> io::Result<()> {
    match answer {
        Ok(amount) => print!(rt; " 0 {}", amount.0),
        Err(refusal) => print!(rt; " {} 0", refusal.number()),
    }
}

// Every read-out of a ledger: hour 10 of day 3, day 3, the total and the standing hours, each with its refusal first.
fn read_out(rt: &impl Print, m: Month) -> io::Result<()> {
    print!(rt; "read-outs")?;
    told(rt, m.hour(3, 10))?;
    told(rt, m.day(3))?;
    told(rt, m.total())?;
    match m.standing() {
        Ok(standing) => println!(rt; " 0 {standing}"),
        Err(refusal) => println!(rt; " {} 0", refusal.number()),
    }
}

// Both loss fees as they were last set, each with its refusal first.
fn read_fees(rt: &impl Print, m: Month) -> io::Result<()> {
    print!(rt; "fees")?;
    told(rt, m.basic_fee())?;
    told(rt, m.excess_fee())?;
    println!(rt; "")
}

// A withdrawn hour posts again.
fn changed(rt: &impl Print, m: Month) -> io::Result<Month> {
    let m = book(rt, "replace", m, m.replace(3, 10, Dollars(6_280)))?;
    let m = book(rt, "withdraw", m, m.withdraw(3, 10))?;
    let m = book(rt, "withdraw empty", m, m.withdraw(3, 10))?;
    let m = book(rt, "replace empty", m, m.replace(3, 10, Dollars(1)))?;
    let m = book(rt, "post withdrawn", m, m.post(3, 10, Dollars(-5)))?;
    let m = book(rt, "basic fee again", m, m.set_basic_fee(Dollars(100)))?;
    read_out(rt, m)?;
    Ok(m)
}

// A closed month.
fn closed(rt: &impl Print, m: Month) -> io::Result<()> {
    let m = book(rt, "close", m, m.close())?;
    let m = book(rt, "close closed", m, m.close())?;
    let m = book(rt, "post closed", m, m.post(4, 0, Dollars(1)))?;
    let m = book(rt, "replace closed", m, m.replace(3, 10, Dollars(1)))?;
    let m = book(rt, "withdraw closed", m, m.withdraw(3, 10))?;
    let m = book(rt, "basic fee closed", m, m.set_basic_fee(Dollars(1)))?;
    read_out(rt, m)
}

fn lengths(rt: &impl Print) -> io::Result<()> {
    book(rt, "open 27", none(), Month::open(27))?;
    book(rt, "open 28", none(), Month::open(28))?;
    book(rt, "open 32", none(), Month::open(32))?;
    book(rt, "open 255", none(), Month::open(255))?;
    Ok(())
}

fn days_and_hours(rt: &impl Print, m: Month) -> io::Result<()> {
    book(rt, "day 0", m, m.post(0, 0, Dollars(1)))?;
    book(rt, "day 30", m, m.post(30, 23, Dollars(1)))?;
    book(rt, "day 31", m, m.post(31, 0, Dollars(1)))?;
    book(rt, "hour 24", m, m.post(1, 24, Dollars(1)))?;
    book(rt, "day 255 hour 255", m, m.post(255, 255, Dollars(1)))?;
    Ok(())
}

fn amounts(rt: &impl Print, m: Month) -> io::Result<()> {
    book(rt, "amount least", m, m.post(1, 0, Dollars(-1_000_000_000)))?;
    book(rt, "amount below", m, m.post(1, 0, Dollars(-1_000_000_001)))?;
    book(rt, "amount most", m, m.post(1, 0, Dollars(1_000_000_000)))?;
    book(rt, "amount above", m, m.post(1, 0, Dollars(1_000_000_001)))?;
    book(rt, "amount i64", m, m.post(1, 0, Dollars(i64::MIN)))?;
    Ok(())
}

fn loss_fees(rt: &impl Print, m: Month) -> io::Result<()> {
    book(rt, "basic fee zero", m, m.set_basic_fee(Dollars(0)))?;
    book(rt, "basic fee below", m, m.set_basic_fee(Dollars(-1)))?;
    book(
        rt,
        "basic fee most",
        m,
        m.set_basic_fee(Dollars(100_000_000_000)),
    )?;
    book(
        rt,
        "basic fee above",
        m,
        m.set_basic_fee(Dollars(100_000_000_001)),
    )?;
    book(rt, "basic fee i64", m, m.set_basic_fee(Dollars(i64::MAX)))?;
    book(rt, "excess fee below", m, m.set_excess_fee(Dollars(-1)))?;
    book(
        rt,
        "excess fee most",
        m,
        m.set_excess_fee(Dollars(100_000_000_000)),
    )?;
    book(
        rt,
        "excess fee above",
        m,
        m.set_excess_fee(Dollars(100_000_000_001)),
    )?;
    Ok(())
}

// The month with the largest basic fee.
fn dearest(m: Month) -> Month {
    m.set_basic_fee(Dollars(100_000_000_000)).unwrap_or(m)
}

// A month with every hour posted.
fn full(amount: i64) -> Month {
    let mut m = opened(31);
    for day in 1..32 {
        for hour in 0..24 {
            m = m.post(day, hour, Dollars(amount)).unwrap_or(m);
        }
    }
    m
}

fn opened(days: u8) -> Month {
    Month::open(days).unwrap_or(none())
}

// No month: no days, and all zero.
fn none() -> Month {
    Month {
        days: 0,
        closed: false,
        basic: Dollars(0),
        excess: Dollars(0),
        marks: [false; Month::PLACES],
        amounts: [0; Month::PLACES],
    }
}

// A ledger that no run of calls hands back: every call and every read-out is 22.
fn forge(rt: &impl Print, label: &str, m: Month) -> io::Result<()> {
    println!(rt; "{label}")?;
    book(rt, "post", m, m.post(3, 10, Dollars(1)))?;
    book(rt, "replace", m, m.replace(3, 10, Dollars(1)))?;
    book(rt, "withdraw", m, m.withdraw(3, 10))?;
    book(rt, "basic fee", m, m.set_basic_fee(Dollars(1)))?;
    book(rt, "excess fee", m, m.set_excess_fee(Dollars(1)))?;
    book(rt, "close", m, m.close())?;
    read_out(rt, m)?;
    read_fees(rt, m)
}

// A post in place, and what stands there after it.
fn post_at(
    rt: &impl Print,
    label: &str,
    head: Head,
    marks: &mut [bool],
    amounts: &mut [i64],
    place: usize,
) -> io::Result<()> {
    let refusal = match board::post_in(head, marks, amounts, place, Dollars(5)) {
        Ok(()) => 0,
        Err(refusal) => refusal.number(),
    };
    print!(rt; "{label} {refusal}")?;
    told(rt, board::hour_in(head, marks, amounts, place))?;
    println!(rt; "")
}
