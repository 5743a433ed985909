// The questions of the program `desk`: of each its word, and the shape of its numbers. And the numbers of the faults.
#![tactic(auto)]

ghost use Rattle.std.specs.Prelude.{◌≡◌};
ghost use Rattle.words.specs.Questions.{known, singles, seconds_shape, scores_shape, singles_groups, hour_shape, state_shape, unknown, question_of};

use units::limits;

mod codes;
pub mod faults;

// The seconds of an hour, as a shape counts them.
const SECONDS: u16 = limits::SECONDS as u16;

// What is asked: a rule or an hour, answered by a few fields; a run of them; a frame or two; a logger's frame.
#[derive(Clone, Copy)]
pub enum Question {
    Rule(Rule),
    Hour(Hour),
    Series(Series),
    Frame(Framing),
    PairFrame,
    Unknown,
}

#[derive(Clone, Copy)]
pub enum Rule {
    Kilowatts,
    Curve,
    Score,
    Rate,
    Reached,
    Bands,
    Factor,
    Fee,
    Quality,
    Energy,
    Loss,
    Pair,
}

#[derive(Clone, Copy)]
pub enum Hour {
    Dreg,
    Edreg,
    Sreg,
}

#[derive(Clone, Copy)]
pub enum Series {
    Ramp,
    DregScores,
    EdregScores,
    SregScores,
}

#[derive(Clone, Copy)]
pub enum Framing {
    DregFrame,
    EdregFrame,
    SregFrame,
    Frame,
    LossFrames,
}

// The shape of a question's numbers: so many single ones; up to four lists, each its count and then entries of so
// many numbers (0: no such list); so many numbers; and groups of so many (0: none), to the end.
#[derive(Clone, Copy)]
pub struct Shape {
    pub head: u8,
    pub lists: [u8; 4],
    pub tail: u16,
    pub group: u8,
}

// What a word asks: 0, or 101 where it is none of the words; the question; the shape of its numbers.
#[derive(Clone, Copy)]
pub struct Row {
    pub fault: u8,
    pub question: Question,
    pub shape: Shape,
}

// The answer of a question with few fields: a refusal's number and the fields, zeros after them.
#[derive(Clone, Copy)]
pub struct Few {
    pub refusal: u8,
    pub count: usize,
    pub values: [i64; 12],
}

// THE TABLE: what a word's code asks.
#[tactic(auto, unfolding(crate::specs::Questions::question_of, crate::specs::Words::letter_of))]
pub fn question_of(code: u64) -> Row
    ensures { result ≡ question_of code }
{
    match code {
        codes::KILOWATTS => known(Question::Rule(Rule::Kilowatts), singles(1)),
        codes::CURVE => known(Question::Rule(Rule::Curve), singles(2)),
        codes::SCORE => known(Question::Rule(Rule::Score), singles(5)),
        codes::RAMP => known(Question::Series(Series::Ramp), singles(2)),
        codes::RATE => known(Question::Rule(Rule::Rate), scored(0)),
        codes::REACHED => known(Question::Rule(Rule::Reached), scored(1)),
        codes::BANDS => known(Question::Rule(Rule::Bands), groups(0, 2)),
        codes::FACTOR => known(Question::Rule(Rule::Factor), groups(1, 2)),
        codes::FEE => known(Question::Rule(Rule::Fee), singles(2)),
        codes::QUALITY => known(Question::Rule(Rule::Quality), singles(3)),
        codes::ENERGY => known(Question::Rule(Rule::Energy), seconds(6)),
        codes::LOSS => known(Question::Rule(Rule::Loss), singles(4)),
        codes::PAIR => known(Question::Rule(Rule::Pair), singles(2)),
        codes::DREG => known(Question::Hour(Hour::Dreg), hourly(4)),
        codes::EDREG => known(Question::Hour(Hour::Edreg), hourly(11)),
        codes::SREG => known(Question::Hour(Hour::Sreg), stated(3)),
        codes::DREG_SCORES => known(Question::Series(Series::DregScores), hourly(4)),
        codes::EDREG_SCORES => known(Question::Series(Series::EdregScores), hourly(11)),
        codes::SREG_SCORES => known(Question::Series(Series::SregScores), stated(3)),
        codes::DREG_FRAME => known(Question::Frame(Framing::DregFrame), hourly(6)),
        codes::EDREG_FRAME => known(Question::Frame(Framing::EdregFrame), hourly(13)),
        codes::SREG_FRAME => known(Question::Frame(Framing::SregFrame), stated(5)),
        codes::FRAME => known(Question::Frame(Framing::Frame), singles(4)),
        codes::LOSS_FRAMES => known(Question::Frame(Framing::LossFrames), singles(4)),
        codes::PAIR_FRAME => known(Question::PairFrame, singles(3)),
        _ => unknown(),
    }
}

// What a word of the table asks.
fn known(question: Question, shape: Shape) -> Row
    ensures { result ≡ known question shape }
{
    Row {
        fault: 0,
        question,
        shape,
    }
}

// None of the words.
fn unknown() -> Row
    ensures { result ≡ unknown }
{
    Row {
        fault: faults::NOT_QUESTION,
        question: Question::Unknown,
        shape: singles(0),
    }
}

// Single numbers.
fn singles(head: u8) -> Shape
    ensures { result ≡ singles head }
{
    Shape {
        head,
        lists: [0; 4],
        tail: 0,
        group: 0,
    }
}

// Single numbers, and one for each second of an hour.
fn seconds(head: u8) -> Shape
    ensures { result ≡ seconds_shape head }
{
    Shape {
        tail: SECONDS,
        ..singles(head)
    }
}

// Single numbers, earlier scores, and one for each second of an hour.
fn scored(head: u8) -> Shape
    ensures { result ≡ scores_shape head }
{
    Shape {
        lists: [1, 0, 0, 0],
        ..seconds(head)
    }
}

// Single numbers, and groups of so many after them.
fn groups(head: u8, group: u8) -> Shape
    ensures { result ≡ singles_groups head group }
{
    Shape {
        group,
        ..singles(head)
    }
}

// An hour's: single numbers, the bands, the earlier scores, two readings for each second.
fn hourly(head: u8) -> Shape
    ensures { result ≡ hour_shape head }
{
    Shape {
        lists: [2, 1, 0, 0],
        tail: 2 * SECONDS,
        ..singles(head)
    }
}

// An sReg hour's: as an hour's, with the three numbers of a state before the readings.
fn stated(head: u8) -> Shape
    ensures { result ≡ state_shape head }
{
    Shape {
        tail: 3 + 2 * SECONDS,
        ..hourly(head)
    }
}
