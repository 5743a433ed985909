// The questions that print a frame, or two: the entries that they hold.
#![tactic(auto)]

ghost use Rattle.std.specs.Prelude.{◌≡◌};
ghost use Rattle.hours.specs.Hours.{hour_numbers};
ghost use Rattle.frames.specs.Frames.{no_entry, single, framed_by, frame_asked, hour_post, fee_entry, loss_frames, frame_answer};

use frame::{Entry, kinds};
use units::{Dollars, limits, refusals};
use words::{Framing, Hour};

// An entry, and a second one where they are a pair; or the number of a refusal that comes before the frame writer's
// own, and zeros.
#[derive(Clone, Copy)]
pub struct Framed {
    pub refusal: u8,
    pub entry: Entry,
    pub paired: bool,
    pub second: Entry,
}

// THE FAMILY: the entries that a question asks for, by its first numbers, and by the terms, bands, earlier scores and
// readings of its hour.
pub fn answer(
    asks: Framing,
    head: [i64; 12],
    terms: [i64; 12],
    bands: &[i64],
    counted: bool,
    earlier: &[i64],
    readings: &[i64],
) -> Framed
    ensures { result ≡ frame_answer asks head (hour_numbers terms bands.now counted earlier.now readings.now) }
{
    match asks {
        Framing::DregFrame => post(Hour::Dreg, head, terms, bands, counted, earlier, readings),
        Framing::EdregFrame => post(Hour::Edreg, head, terms, bands, counted, earlier, readings),
        Framing::SregFrame => post(Hour::Sreg, head, terms, bands, counted, earlier, readings),
        Framing::Frame => asked(head),
        Framing::LossFrames => loss_frames(head),
    }
}

// The post of an hour's amount, on the day and the hour that stand first.
fn post(
    hour: Hour,
    head: [i64; 12],
    terms: [i64; 12],
    bands: &[i64],
    counted: bool,
    earlier: &[i64],
    readings: &[i64],
) -> Framed
    ensures { result ≡ hour_post hour head (hour_numbers terms bands.now counted earlier.now readings.now) }
{
    let mut scores = [0u8; limits::SECONDS];
    let settled = hours::settle(hour, terms, bands, counted, earlier, readings, &mut scores);
    let amount = settled.amount;
    framed_by(
        settled.refusal,
        kinds::POST as i64,
        head[0],
        head[1],
        amount.0,
    )
}

// An entry, after the number of a refusal that comes before its own: 13, 6.
fn framed_by(before: u8, kind: i64, day: i64, hour: i64, amount: i64) -> Framed
    ensures { result ≡ framed_by before kind day hour amount }
{
    let place = whole::unless(
        whole::within(day, 0, 255) & whole::within(hour, 0, 255),
        refusals::NOT_IN_MONTH,
        0,
    );
    let form = whole::unless(whole::within(kind, 0, 255), refusals::BAD_KIND, place);
    let k = whole::or_else(before, form);
    if k != 0 {
        return single(k, no_entry());
    }
    single(
        0,
        Entry {
            kind: numbers::byte_of(kind),
            day: numbers::byte_of(day),
            hour: numbers::byte_of(hour),
            amount: Dollars(amount),
        },
    )
}

// One frame alone.
fn single(refusal: u8, entry: Entry) -> Framed
    ensures { result ≡ single refusal entry }
{
    Framed {
        refusal,
        entry,
        paired: false,
        second: no_entry(),
    }
}

fn no_entry() -> Entry
    ensures { result ≡ no_entry }
{
    fee_entry(0, Dollars(0))
}

// An entry that uses no day and no hour.
fn fee_entry(kind: u8, fee: Dollars) -> Entry
    ensures { result ≡ fee_entry kind fee }
{
    Entry {
        kind,
        day: 0,
        hour: 0,
        amount: fee,
    }
}

fn asked(head: [i64; 12]) -> Framed
    ensures { result ≡ frame_asked head }
{
    framed_by(0, head[0], head[1], head[2], head[3])
}

// The frames that set the two loss fees.
#[tactic(auto, unfolding(crate::specs::Frames::loss_frames))]
fn loss_frames(head: [i64; 12]) -> Framed
    ensures { result ≡ loss_frames head }
{
    match loss::loss_fee(head[0], head[1], head[2], head[3]) {
        Ok(loss) => Framed {
            refusal: 0,
            entry: fee_entry(kinds::BASIC_FEE, loss.basic),
            paired: true,
            second: fee_entry(kinds::EXCESS_FEE, loss.excess),
        },
        Err(refusal) => single(refusal.number(), no_entry()),
    }
}
