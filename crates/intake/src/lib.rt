// The program `ledger` between its input and its output: lines are cut, taken to the ledger (crate book) and answered.
//
// The month's places are two lent runs, marks and amounts; the rest goes by value from chunk to chunk.
#![tactic(auto)]

ghost use Rattle.std.specs.Prelude.{◌+◌, ◌*◌, ◌≤◌, ◌≡◌, length};
ghost use Rattle.units.specs.Refusals.{told_number};
ghost use Rattle.units.specs.Units.{dollars};
ghost use Rattle.text.specs.Text.{put};
ghost use Rattle.frame.specs.Frame.{reading_of};
ghost use Rattle.book.specs.Book.{reading_refusal, book_in};
ghost use Rattle.book.specs.Inner.{book_of};
ghost use Rattle.intake.specs.Answers.{answer_to, book_after, book_total};
ghost use Rattle.intake.specs.Inner.{held_in, kept_in, first_progress, book_refusal, feed_refusal, chunk_text, chunk_book, chunk_state, fed_of, fed_marks, fed_amounts, fed_out, last_book, last_answer, last_text, end_refusal, finished_of, end_marks, end_amounts, end_out};

use book::{Cover, Taken};
use head::Head;
use units::{Dollars, Refusal, limits, refusals};

mod cut;
mod print;

// The most lines that are answered.
pub const MOST: u64 = 1_000_000;

// A line that has begun: at most 25 bytes of it.
#[derive(Clone, Copy)]
pub struct Line {
    pub bytes: [u8; 25],
    pub len: usize,
}

// What goes from chunk to chunk.
#[derive(Clone, Copy)]
pub struct Progress {
    pub cover: Cover,
    pub line: Line,
}

// What a chunk comes to: the next state, and how many bytes of answers were written.
#[derive(Clone, Copy)]
pub struct Fed {
    pub refusal: u8,
    pub state: Progress,
    pub written: usize,
}

#[derive(Clone, Copy)]
pub struct Finished {
    pub refusal: u8,
    pub written: usize,
}

// The cover after a line, and the place after its answer. No pair: the contracts name its two parts.
#[derive(Drop)]
struct Work {
    cover: Cover,
    at: usize,
}

// The first state.
#[tactic(auto, unfolding(crate::specs::Inner::first_progress))]
pub fn start() -> Progress
    ensures { result ≡ first_progress }
{
    Progress {
        cover: Cover {
            count: 0,
            opened: false,
            head: Head {
                days: 0,
                closed: false,
                basic: Dollars(0),
                excess: Dollars(0),
            },
        },
        line: cut::empty(),
    }
}

// Answers the lines that end in a chunk into out; or answers 1 or 22 and changes nothing.
#[tactic(auto, unfolding(crate::specs::Inner::fed_of, crate::specs::Inner::fed_marks, crate::specs::Inner::fed_amounts, crate::specs::Inner::fed_out))]
pub fn feed(
    state: Progress,
    chunk: &[u8],
    marks: &mut [bool],
    amounts: &mut [i64],
    out: &mut [u8],
) -> Fed
    ensures answers { result ≡ fed_of state chunk.now marks.old amounts.old out.old }
    ensures marks { marks.new ≡ fed_marks state chunk.now marks.old amounts.old out.old }
    ensures amounts { amounts.new ≡ fed_amounts state chunk.now marks.old amounts.old out.old }
    ensures text { out.new ≡ fed_out state chunk.now marks.old amounts.old out.old }
    ensures room { result.written ≤ length out.old }
{
    let refusal = feed_refusal(state.cover, chunk.len(), marks, amounts, out.len());
    if refusal != 0 {
        return Fed {
            refusal,
            state,
            written: 0,
        };
    }
    answer_all(state, chunk, marks, amounts, out)
}

// Answers a last line without its end, and writes the total, into out; or answers 1 or 22 and changes nothing.
#[tactic(auto, unfolding(crate::specs::Inner::finished_of, crate::specs::Inner::end_marks, crate::specs::Inner::end_amounts, crate::specs::Inner::end_out))]
pub fn finish(state: Progress, marks: &mut [bool], amounts: &mut [i64], out: &mut [u8]) -> Finished
    ensures answers { result ≡ finished_of state marks.old amounts.old out.old }
    ensures marks { marks.new ≡ end_marks state marks.old amounts.old out.old }
    ensures amounts { amounts.new ≡ end_amounts state marks.old amounts.old out.old }
    ensures text { out.new ≡ end_out state marks.old amounts.old out.old }
    ensures room { result.written ≤ length out.old }
{
    let refusal = end_refusal(state.cover, marks, amounts, out.len());
    if refusal != 0 {
        return Finished {
            refusal,
            written: 0,
        };
    }
    finish_all(state, marks, amounts, out)
}

// Room for twelve bytes of answer for each byte, then the state.
#[tactic(auto, unfolding(crate::specs::Inner::feed_refusal))]
fn feed_refusal<'a>(
    cover: Cover,
    chunk: usize,
    marks: &'a [bool],
    amounts: &'a [i64],
    out: usize,
) -> u8
    ensures { result ≡ feed_refusal (book_of cover marks.now amounts.now) chunk out }
{
    let state = book_refusal(cover, marks, amounts);
    whole::unless(chunk <= out / 12, refusals::WRONG_LENGTH, state)
}

// 1 for a run that is not the ledger's, 22 for an opened ledger that no run of calls hands back.
#[tactic(auto, using(board::proofs::Core::ledger_number))]
fn book_refusal<'a>(cover: Cover, marks: &'a [bool], amounts: &'a [i64]) -> u8
    ensures { result ≡ book_refusal (book_of cover marks.now amounts.now) }
{
    if cover.opened {
        return told_number(board::check_in(cover.head, marks, amounts));
    }
    let runs = (marks.len() == limits::PLACES) & (amounts.len() == limits::PLACES);
    whole::unless(runs, refusals::WRONG_LENGTH, 0)
}

fn told_number(answer: Result<(), Refusal>) -> u8
    ensures { result ≡ told_number answer }
{
    match answer {
        Ok(()) => 0,
        Err(refusal) => refusal.number(),
    }
}

// Answers the lines that end in a chunk.
fn answer_all(
    state: Progress,
    chunk: &[u8],
    marks: &mut [bool],
    amounts: &mut [i64],
    out: &mut [u8],
) -> Fed
    requires { 12 * length chunk.now ≤ length out.old }
    ensures answers { result ≡ record { refusal = 0; state = chunk_state state chunk.now marks.old amounts.old; written = length (chunk_text state chunk.now marks.old amounts.old) } }
    ensures marks { marks.new ≡ (chunk_book state chunk.now marks.old amounts.old).board.marks }
    ensures amounts { amounts.new ≡ (chunk_book state chunk.now marks.old amounts.old).board.amounts }
    ensures text { out.new ≡ put out.old 0 (chunk_text state chunk.now marks.old amounts.old) }
    ensures room { result.written ≤ length out.old }
{
    let mut cover = state.cover;
    let mut line = state.line;
    let mut from = 0;
    let mut at = 0;
    let mut end = lines::line_end(chunk, 0);
    // `end` is looked for, and not counted
    while end < chunk.len() {
        let work = answer(cover, line, &chunk[from..end], marks, amounts, out, at);
        cover = work.cover;
        at = work.at;
        line = cut::empty();
        from = end + 1;
        end = lines::line_end(chunk, from);
    }
    let left = cut::keep(line, &chunk[from..]);
    Fed {
        refusal: 0,
        state: Progress { cover, line: left },
        written: at,
    }
}

// Answers a line, or ignores it where the most lines were answered.
fn answer(
    cover: Cover,
    line: Line,
    rest: &[u8],
    marks: &mut [bool],
    amounts: &mut [i64],
    out: &mut [u8],
    at: usize,
) -> Work
    requires { at + 12 ≤ length out.old }
    ensures book { book_of result.cover marks.new amounts.new ≡ book_after (book_of cover marks.old amounts.old) (held_in (kept_in line rest.now)) }
    ensures place { result.at ≡ at + length (answer_to (book_of cover marks.old amounts.old) (held_in (kept_in line rest.now))) }
    ensures text { out.new ≡ put out.old at (answer_to (book_of cover marks.old amounts.old) (held_in (kept_in line rest.now))) }
    ensures room { result.at ≤ at + 12 }
{
    let count = cover.count;
    if MOST <= count {
        return Work { cover, at };
    }
    let taken = end_line(cover, line, rest, marks, amounts);
    let to = print::put_answer(out, at, count + 1, taken.refusal);
    Work {
        cover: Cover {
            count: count + 1,
            ..taken.cover
        },
        at: to,
    }
}

// A line that began in an earlier chunk, or in this one, ends: `rest` is what this chunk has of it.
fn end_line(cover: Cover, line: Line, rest: &[u8], marks: &mut [bool], amounts: &mut [i64]) -> Taken
    ensures number { result.refusal ≡ reading_refusal (book_of cover marks.old amounts.old) (reading_of (held_in (kept_in line rest.now))) }
    ensures book { book_of result.cover marks.new amounts.new ≡ book_in (book_of cover marks.old amounts.old) (reading_of (held_in (kept_in line rest.now))) }
{
    if line.len == 0 {
        return book::take(cover, rest, marks, amounts);
    }
    let full = cut::keep(line, rest);
    book::take(cover, &full.bytes[..cut::held(full.len)], marks, amounts)
}

// Room for an answer and the total, then the state.
#[tactic(auto, unfolding(crate::specs::Inner::end_refusal))]
fn end_refusal<'a>(cover: Cover, marks: &'a [bool], amounts: &'a [i64], out: usize) -> u8
    ensures { result ≡ end_refusal (book_of cover marks.now amounts.now) out }
{
    let state = book_refusal(cover, marks, amounts);
    whole::unless(40 <= out, refusals::WRONG_LENGTH, state)
}

// The last line and the total.
fn finish_all(state: Progress, marks: &mut [bool], amounts: &mut [i64], out: &mut [u8]) -> Finished
    requires in_bounds { 40 ≤ length out.old }
    requires amounts_value { book_refusal (book_of state.cover marks.old amounts.old) ≡ 0 }
    ensures answers { result ≡ record { refusal = 0; written = length (last_text state marks.old amounts.old) } }
    ensures marks { marks.new ≡ (last_book state marks.old amounts.old).board.marks }
    ensures amounts { amounts.new ≡ (last_book state marks.old amounts.old).board.amounts }
    ensures text { out.new ≡ put out.old 0 (last_text state marks.old amounts.old) }
    ensures room { result.written ≤ length out.old }
{
    let work = last_line(state, marks, amounts, out);
    let sum = total(work.cover, marks, amounts);
    Finished {
        refusal: 0,
        written: print::put_total(out, work.at, sum.0),
    }
}

// The line at the input's end, if it has a byte.
#[tactic(auto, using(crate::proofs::Going::last_one))]
fn last_line(state: Progress, marks: &mut [bool], amounts: &mut [i64], out: &mut [u8]) -> Work
    requires { 12 ≤ length out.old }
    ensures book { book_of result.cover marks.new amounts.new ≡ last_book state marks.old amounts.old }
    ensures place { result.at ≡ length (last_answer state marks.old amounts.old) }
    ensures text { out.new ≡ put out.old 0 (last_answer state marks.old amounts.old) }
    ensures room { result.at ≤ 12 }
{
    let cover = state.cover;
    if state.line.len == 0 {
        return Work { cover, at: 0 };
    }
    answer(cover, state.line, b"", marks, amounts, out, 0)
}

// The month total of a ledger in form, 0 where no month is open.
fn total<'a>(cover: Cover, marks: &'a [bool], amounts: &'a [i64]) -> Dollars
    requires { book_refusal (book_of cover marks.now amounts.now) ≡ 0 }
    ensures { result ≡ dollars (book_total (book_of cover marks.now amounts.now)) }
{
    if cover.opened {
        return board::total_in(cover.head, marks, amounts).unwrap_or(Dollars(0));
    }
    Dollars(0)
}
