// One line of the program `ledger`, read as a frame and taken to the ledger. The month's places are two lent runs,
// marks and amounts; the rest goes by value from line to line.
#![tactic(auto)]

ghost use Rattle.std.specs.Prelude.{◌≡◌, true};
ghost use Rattle.units.specs.Refusals.{told_number, result_by};
ghost use Rattle.head.specs.Inner.{board_in};
ghost use Rattle.frame.specs.Kinds.{uses_hour};
ghost use Rattle.frame.specs.Frame.{reading_of};
ghost use Rattle.book.specs.Book.{open_refusal, open_book, call_of, asked_refusal, asked_book, frame_refusal, frame_book, reading_refusal, book_in};
ghost use Rattle.book.specs.Inner.{book_of, place_call, place_number, place_left, head_call, open_taken, with_head, on_head, head_taken};

use frame::{Entry, kinds};
use head::Head;
use units::{Dollars, Refusal, limits, refusals};

// What goes from line to line, the month's places left out.
#[derive(Clone, Copy)]
pub struct Cover {
    pub count: u64,
    pub opened: bool,
    pub head: Head,
}

// What a line comes to.
#[derive(Clone, Copy)]
pub struct Taken {
    pub refusal: u8,
    pub cover: Cover,
}

// One line: one that does not read as a frame never reaches the ledger.
pub fn take(cover: Cover, line: &[u8], marks: &mut [bool], amounts: &mut [i64]) -> Taken
    ensures number { result.refusal ≡ reading_refusal (book_of cover marks.old amounts.old) (reading_of line.now) }
    ensures book { book_of result.cover marks.new amounts.new ≡ book_in (book_of cover marks.old amounts.old) (reading_of line.now) }
{
    let got = frame::read_frame(line);
    let Ok(entry) = got else {
        return Taken {
            refusal: refusal_number(got),
            cover,
        };
    };
    take_frame(cover, entry, marks, amounts)
}

fn refusal_number(got: Result<Entry, Refusal>) -> u8
    ensures { result ≡ told_number got }
{
    match got {
        Ok(_) => 0,
        Err(refusal) => refusal.number(),
    }
}

fn take_frame(cover: Cover, entry: Entry, marks: &mut [bool], amounts: &mut [i64]) -> Taken
    ensures number { result.refusal ≡ frame_refusal (book_of cover marks.old amounts.old) entry }
    ensures book { book_of result.cover marks.new amounts.new ≡ frame_book (book_of cover marks.old amounts.old) entry }
{
    if entry.kind == kinds::OPEN {
        return open_month(cover, entry.day, marks, amounts);
    }
    call_month(cover, entry, marks, amounts)
}

// Opens a month: 14, 1, 6.
fn open_month(cover: Cover, days: u8, marks: &mut [bool], amounts: &mut [i64]) -> Taken
    ensures number { result.refusal ≡ open_refusal (book_of cover marks.old amounts.old) days }
    ensures book { book_of result.cover marks.new amounts.new ≡ open_book (book_of cover marks.old amounts.old) days }
{
    if cover.opened {
        return Taken {
            refusal: refusals::NOT_OPEN,
            cover,
        };
    }
    let headed = board::open_in(days, marks, amounts);
    open_taken(cover, headed)
}

fn open_taken(cover: Cover, headed: Result<Head, Refusal>) -> Taken
    ensures { result ≡ open_taken cover headed }
{
    match headed {
        Ok(head) => Taken {
            refusal: 0,
            cover: Cover {
                opened: true,
                head,
                ..cover
            },
        },
        Err(refusal) => Taken {
            refusal: refusal.number(),
            cover,
        },
    }
}

// The cover with what a head's call leaves.
fn with_head(cover: Cover, headed: Result<Head, Refusal>) -> Taken
    ensures { result ≡ with_head cover headed }
{
    match headed {
        Ok(head) => Taken {
            refusal: 0,
            cover: Cover { head, ..cover },
        },
        Err(refusal) => Taken {
            refusal: refusal.number(),
            cover,
        },
    }
}

// Any other frame: 14, then the ledger's.
fn call_month(cover: Cover, entry: Entry, marks: &mut [bool], amounts: &mut [i64]) -> Taken
    ensures number { result.refusal ≡ asked_refusal (book_of cover marks.old amounts.old) (call_of entry) }
    ensures book { book_of result.cover marks.new amounts.new ≡ asked_book (book_of cover marks.old amounts.old) (call_of entry) }
{
    if !cover.opened {
        return Taken {
            refusal: refusals::NOT_OPEN,
            cover,
        };
    }
    if uses_hour(entry.kind) {
        let refusal = told_number(call_place(cover.head, entry, marks, amounts));
        return Taken { refusal, cover };
    }
    let runs = (marks.len() == limits::PLACES) & (amounts.len() == limits::PLACES);
    call_head(cover, entry.kind, entry.amount, runs)
}

// Whether a kind's call touches a place.
fn uses_hour(kind: u8) -> bool
    ensures { result ≡ uses_hour kind }
{
    matches!(kind, kinds::POST | kinds::REPLACE | kinds::WITHDRAW)
}

// A post, a replacement or a withdrawal. Any other kind is no call at a place.
fn call_place(
    head: Head,
    entry: Entry,
    marks: &mut [bool],
    amounts: &mut [i64],
) -> Result<(), Refusal>
    ensures number { result ≡ result_by (place_number head.days (board_in head marks.old amounts.old) (place_call entry)) tt }
    ensures board { board_in head marks.new amounts.new ≡ place_left head.days (board_in head marks.old amounts.old) (place_call entry) }
{
    let place = head::place_of(entry.day, entry.hour);
    match entry.kind {
        kinds::POST => board::post_in(head, marks, amounts, place, entry.amount),
        kinds::REPLACE => board::replace_in(head, marks, amounts, place, entry.amount),
        kinds::WITHDRAW => board::withdraw_in(head, marks, amounts, place),
        _ => Err(Refusal::BadKind),
    }
}

fn told_number(answer: Result<(), Refusal>) -> u8
    ensures { result ≡ told_number answer }
{
    match answer {
        Ok(()) => 0,
        Err(refusal) => refusal.number(),
    }
}

// The calls that touch no place. Any other kind is no call.
#[tactic(auto, using(std::proofs::lemmas::Bool::Decides::nat_tests))]
fn call_head(cover: Cover, kind: u8, amount: Dollars, runs: bool) -> Taken
    ensures { result ≡ head_taken cover runs (head_call kind amount.0) }
{
    match kind {
        kinds::BASIC_FEE => on_head(cover, runs, head::set_basic_fee(cover.head, amount)),
        kinds::EXCESS_FEE => on_head(cover, runs, head::set_excess_fee(cover.head, amount)),
        kinds::CLOSE => on_head(cover, runs, head::close(cover.head)),
        _ => Taken {
            refusal: refusals::BAD_KIND,
            cover,
        },
    }
}

// A head's answer, where the runs are the ledger's; 1 where they are not.
fn on_head(cover: Cover, runs: bool, headed: Result<Head, Refusal>) -> Taken
    ensures { result ≡ on_head cover runs headed }
{
    if runs {
        return with_head(cover, headed);
    }
    Taken {
        refusal: refusals::WRONG_LENGTH,
        cover,
    }
}
