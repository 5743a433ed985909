// The program `desk` between its reading and its printing: a question's word and numbers in, its lines of text out.
#![tactic(auto)]

ghost use Rattle.std.specs.Prelude.{◌≤◌, ◌≡◌, length};
ghost use Rattle.text.specs.Text.{put};
ghost use Rattle.words.specs.Inner.{unboxed};
ghost use Rattle.frame_lines.specs.Text.{frame_text};
ghost use Rattle.question.specs.Lines.{line_text};
ghost use Rattle.question.specs.Inner.{room, answered, printed};
ghost use Rattle.question.specs.Questions.{rule_prints, hour_prints, series_prints, frame_prints, pair_prints, answer_text, told_line, question_text, reply_text};

use numbers::Places;
use units::{limits, refusals};
use words::{Few, Framing, Hour, Question, Rule, Series};

mod lines;
mod parts;

// The places that a run must have at least, so that every answer fits.
pub const ROOM: usize = 32_768;

// How a question was answered: the text's length; or 1 and nothing for a run that is too short.
#[derive(Clone, Copy)]
pub struct Answered {
    pub refusal: u8,
    pub written: usize,
}

// Answers a question that was read: puts its text at the start of out. The word is given by its code, and the line is
// the one that it is on; a fault that was found while reading comes with its own line. That the word is none of the
// questions' comes first.
pub fn reply(
    word: u64,
    line: u64,
    found: u8,
    place: u64,
    numbers: &[i64],
    out: &mut [u8],
) -> Answered
    ensures answers { result ≡ answered (length out.old) (reply_text word line found place numbers.now) }
    ensures text { out.new ≡ printed out.old (reply_text word line found place numbers.now) }
    ensures short { result.written ≤ length out.old }
{
    let row = words::question_of(word);
    let places = numbers::cut(row.shape, numbers);
    let fault = whole::or_else(row.fault, whole::or_else(found, places.fault));
    let at = told_line(row.fault, line, found, place);
    if out.len() < ROOM {
        return Answered {
            refusal: refusals::WRONG_LENGTH,
            written: 0,
        };
    }
    let written = tell(fault, at, row.question, numbers, places, out);
    Answered {
        refusal: 0,
        written,
    }
}

// The line that a fault is told with.
#[tactic(auto, unfolding(crate::specs::Questions::told_line))]
fn told_line(unknown: u8, line: u64, found: u8, place: u64) -> u64
    ensures { result ≡ told_line unknown line found place }
{
    if (unknown == 0) & (found != 0) {
        return place;
    }
    line
}

// The fault, or the answer of a question that has none.
fn tell(
    fault: u8,
    line: u64,
    question: Question,
    numbers: &[i64],
    places: Places,
    out: &mut [u8],
) -> usize
    requires { room ≤ length out.old }
    ensures place { result ≡ length (question_text fault line question numbers.now places) }
    ensures text { out.new ≡ put out.old 0 (question_text fault line question numbers.now places) }
    ensures short { result ≤ room }
{
    if fault == 0 {
        return put_answer(question, numbers, places, out);
    }
    fault_lines::put_fault(fault, line, out)
}

// The text of a question without a fault.
fn put_answer(question: Question, numbers: &[i64], places: Places, out: &mut [u8]) -> usize
    requires { room ≤ length out.old }
    ensures place { result ≡ length (answer_text question numbers.now places) }
    ensures text { out.new ≡ put out.old 0 (answer_text question numbers.now places) }
    ensures short { result ≤ room }
{
    match question {
        Question::Rule(rule) => put_rule(rule, numbers, places, out),
        Question::Hour(hour) => put_hour(hour, numbers, places, out),
        Question::Series(asks) => put_series(asks, numbers, places, out),
        Question::Frame(asks) => put_framed(asks, numbers, places, out),
        Question::PairFrame => put_pair(numbers, out),
        Question::Unknown => lines::put_line(0, &[], out),
    }
}

fn put_rule(rule: Rule, numbers: &[i64], places: Places, out: &mut [u8]) -> usize
    requires { room ≤ length out.old }
    ensures place { result ≡ length (line_text (rule_prints rule numbers.now places)) }
    ensures text { out.new ≡ put out.old 0 (line_text (rule_prints rule numbers.now places)) }
    ensures short { result ≤ room }
{
    let few = rules::answer(
        rule,
        parts::head_of(numbers),
        places.first.counted,
        parts::part(numbers, places.first.start, places.first.end),
        parts::rest(numbers, places.tail),
    );
    put_few(few, out)
}

// The line of a few fields.
fn put_few(few: Few, out: &mut [u8]) -> usize
    requires count_bound { few.count ≤ 12 }
    requires room_in_bounds { room ≤ length out.old }
    ensures place { result ≡ length (line_text (unboxed few)) }
    ensures text { out.new ≡ put out.old 0 (line_text (unboxed few)) }
    ensures short { result ≤ room }
{
    lines::put_line(few.refusal, &few.values[..few.count], out)
}

fn put_hour(hour: Hour, numbers: &[i64], places: Places, out: &mut [u8]) -> usize
    requires { room ≤ length out.old }
    ensures place { result ≡ length (line_text (hour_prints hour numbers.now places)) }
    ensures text { out.new ≡ put out.old 0 (line_text (hour_prints hour numbers.now places)) }
    ensures short { result ≤ room }
{
    let few = hours::answer(
        hour,
        parts::head_of(numbers),
        parts::part(numbers, places.first.start, places.first.end),
        places.second.counted,
        parts::part(numbers, places.second.start, places.second.end),
        parts::rest(numbers, places.tail),
    );
    put_few(few, out)
}

fn put_series(asks: Series, numbers: &[i64], places: Places, out: &mut [u8]) -> usize
    requires { room ≤ length out.old }
    ensures place { result ≡ length (line_text (series_prints asks numbers.now places)) }
    ensures text { out.new ≡ put out.old 0 (line_text (series_prints asks numbers.now places)) }
    ensures short { result ≤ room }
{
    let mut fields = [0i64; limits::SECONDS];
    let ran = series::answer(
        asks,
        parts::head_of(numbers),
        parts::part(numbers, places.first.start, places.first.end),
        places.second.counted,
        parts::part(numbers, places.second.start, places.second.end),
        parts::rest(numbers, places.tail),
        &mut fields,
    );
    lines::put_line(ran.refusal, &fields[..ran.count], out)
}

fn put_framed(asks: Framing, numbers: &[i64], places: Places, out: &mut [u8]) -> usize
    requires { room ≤ length out.old }
    ensures place { result ≡ length (frame_text (frame_prints asks numbers.now places)) }
    ensures text { out.new ≡ put out.old 0 (frame_text (frame_prints asks numbers.now places)) }
    ensures short { result ≤ room }
{
    let framed = frames::answer(
        asks,
        parts::head_of(numbers),
        parts::head_of(parts::rest(numbers, 2)),
        parts::part(numbers, places.first.start, places.first.end),
        places.second.counted,
        parts::part(numbers, places.second.start, places.second.end),
        parts::rest(numbers, places.tail),
    );
    frame_lines::put_frames(framed, out)
}

fn put_pair(numbers: &[i64], out: &mut [u8]) -> usize
    requires { room ≤ length out.old }
    ensures place { result ≡ length (pair_prints numbers.now) }
    ensures text { out.new ≡ put out.old 0 (pair_prints numbers.now) }
    ensures short { result ≤ room }
{
    let head = parts::head_of(numbers);
    frame_lines::put_pair(head[0], head[1], head[2], out)
}
