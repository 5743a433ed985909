// The ways to run the calls: on runs in place, and on a month by value.
use crate::draw::Drawn;
use crate::{chance, draw};
use head::Head;
use month::Month;
use units::{Dollars, Refusal, limits};

pub(crate) fn in_place(days: u8, closed: bool, ordered: bool, calls: u64) -> u64 {
    let head = Head {
        days,
        closed,
        basic: Dollars(0),
        excess: Dollars(0),
    };
    let mut marks = [false; limits::PLACES];
    let mut amounts = [0; limits::PLACES];
    calls_in(head, &mut marks, &mut amounts, ordered, calls)
}

pub(crate) fn by_value(days: u8, closed: bool, calls: u64) -> u64 {
    let mut m = opened(days, closed);
    let mut x = 1;
    let mut sum = 0;
    for _ in 0..calls {
        x = chance::next(x);
        let k = match called(m, draw::by_chance(x)) {
            Ok(next) => {
                m = next;
                0
            }
            Err(refusal) => refusal.number(),
        };
        sum = chance::mixed(sum, u64::from(k));
    }
    draw::with_amounts(sum, &m.amounts)
}

fn calls_in(head: Head, marks: &mut [bool], amounts: &mut [i64], ordered: bool, calls: u64) -> u64 {
    let mut x = 1;
    let mut sum = 0;
    for i in 0..calls {
        x = chance::next(x);
        let k = match call_in(head, marks, amounts, chosen(ordered, x, i)) {
            Ok(()) => 0,
            Err(refusal) => refusal.number(),
        };
        sum = chance::mixed(sum, u64::from(k));
    }
    draw::with_amounts(sum, amounts)
}

fn call_in(
    head: Head,
    marks: &mut [bool],
    amounts: &mut [i64],
    call: Drawn,
) -> Result<(), Refusal> {
    let amount = Dollars(call.amount);
    let place = head::place_of(call.day, call.hour);
    match call.kind {
        0..=2 => board::post_in(head, marks, amounts, place, amount),
        3 | 4 => board::replace_in(head, marks, amounts, place, amount),
        _ => board::withdraw_in(head, marks, amounts, place),
    }
}

fn chosen(ordered: bool, x: u64, i: u64) -> Drawn {
    if ordered {
        draw::in_order(i)
    } else {
        draw::by_chance(x)
    }
}

fn opened(days: u8, closed: bool) -> Month {
    let m = Month::open(days).unwrap_or(Month {
        days: 0,
        closed: false,
        basic: Dollars(0),
        excess: Dollars(0),
        marks: [false; limits::PLACES],
        amounts: [0; limits::PLACES],
    });
    if closed {
        return m.close().unwrap_or(m);
    }
    m
}

fn called(m: Month, call: Drawn) -> Result<Month, Refusal> {
    let amount = Dollars(call.amount);
    match call.kind {
        0..=2 => m.post(call.day, call.hour, amount),
        3 | 4 => m.replace(call.day, call.hour, amount),
        _ => m.withdraw(call.day, call.hour),
    }
}
