// Reading questions: bytes in, in chunks of any size; one question at a time out, with its word, its numbers in a
// lent run, and its first fault. What a question means is not known here.
#![tactic(auto)]

ghost use Rattle.std.specs.Prelude.{◌≡◌, length};
ghost use Rattle.whole.specs.Choice.{pick};
ghost use Rattle.tokens.specs.Tokens.{step_of};
ghost use Rattle.asked.specs.Asking.{most_numbers, nothing, start_state, named, asking, faulted, fault_in, with_token, finished};
ghost use Rattle.asked.specs.Asking.{line_after, stepped};
ghost use Rattle.asked.specs.Inner.{stored, run_in, refused, reached_of, answer_in, read_of, read_run, last_of, last_run, end_of, end_run};

use tokens::{Next, Token};
use units::refusals;
use words::faults;

// The most numbers of a question: the length of the run that is lent.
pub const MOST: usize = 8192;

// A question that is read, or has ended.
#[derive(Clone, Copy)]
pub struct Asked {
    // whether a token of it has ended
    pub opened: bool,
    // its word's letters in base 32, the first highest: a is 1, .., z is 26, _ is 27; 0 where it has no word of at
    // most 12 letters
    pub word: u64,
    // the line of its word, or of its first token
    pub line: u64,
    // how many of its numbers stand in the lent run
    pub count: usize,
    // its first fault, 0 without one: 101, 102, 104 (no room) or 105
    pub fault: u8,
    // the line of the token that has the fault, 0 without one
    pub place: u64,
}

// What goes from chunk to chunk.
#[derive(Clone, Copy)]
pub struct State {
    pub asked: Asked,
    pub token: Token,
    pub line: u64,
}

// How far a chunk was read, or what the input's end came to: the question, the state to go on with, how many bytes
// were taken, and whether the question has ended.
#[derive(Clone, Copy)]
pub struct Reached {
    pub refusal: u8,
    pub asked: Asked,
    pub state: State,
    pub taken: usize,
    pub ended: bool,
}

// The first state: line 1, nothing asked.
#[tactic(auto, unfolding(crate::specs::Asking::start_state))]
pub fn start() -> State
    ensures { result ≡ start_state }
{
    State {
        asked: nothing(),
        token: Token::Between,
        line: 1,
    }
}

// Goes through the chunk up to the byte that begins the next question, which is not taken, or through all of it. A run
// of another length is refused with 1, and nothing is changed.
#[tactic(auto, unfolding(crate::specs::Inner::read_of, crate::specs::Inner::read_run))]
pub fn read(state: State, chunk: &[u8], numbers: &mut [i64]) -> Reached
    ensures answer { result ≡ read_of state chunk.now numbers.old }
    ensures run { numbers.new ≡ read_run state chunk.now numbers.old }
{
    if numbers.len() != MOST {
        return refused(state);
    }
    read_all(state, chunk, numbers)
}

// The input's end: the token that has begun ends, and so does the question that is open. A run of another length is
// refused with 1, and nothing is changed.
#[tactic(auto, unfolding(crate::specs::Inner::end_of, crate::specs::Inner::end_run))]
pub fn end(state: State, numbers: &mut [i64]) -> Reached
    ensures answer { result ≡ end_of state numbers.old }
    ensures run { numbers.new ≡ end_run state numbers.old }
{
    if numbers.len() != MOST {
        return refused(state);
    }
    last(state, numbers)
}

fn nothing() -> Asked
    ensures { result ≡ nothing }
{
    Asked {
        opened: false,
        word: 0,
        line: 0,
        count: 0,
        fault: 0,
        place: 0,
    }
}

fn refused(state: State) -> Reached
    ensures { result ≡ refused state }
{
    Reached {
        refusal: refusals::WRONG_LENGTH,
        asked: nothing(),
        state,
        taken: 0,
        ended: false,
    }
}

fn read_all(state: State, chunk: &[u8], numbers: &mut [i64]) -> Reached
    requires { length numbers.old ≡ most_numbers }
    ensures answer { result ≡ answer_in state chunk.now }
    ensures run { numbers.new ≡ run_in state chunk.now numbers.old }
{
    let mut state = state;
    for (i, b) in chunk.iter().enumerate() {
        let next = tokens::step(state.token, *b);
        if state.asked.opened & next.word {
            return reach(state, i, true);
        }
        store(next.ended, state.asked.count, state.token, numbers);
        state = stepped(state, next, *b);
    }
    reach(state, chunk.len(), false)
}

// What a chunk or the input's end comes to; a question that has ended leaves its line, and nothing asked.
#[tactic(auto, unfolding(crate::specs::Inner::reached_of, crate::specs::Asking::state_next))]
fn reach(state: State, taken: usize, ended: bool) -> Reached
    ensures { result ≡ reached_of state taken ended }
{
    let asked = state.asked;
    let state = if ended {
        State {
            asked: nothing(),
            ..state
        }
    } else {
        state
    };
    Reached {
        refusal: 0,
        asked,
        state,
        taken,
        ended,
    }
}

// Puts the number of a token that has ended at the next place, if it is one and finds room.
#[tactic(auto, unfolding(crate::specs::Inner::stored))]
fn store(ended: bool, count: usize, token: Token, numbers: &mut [i64])
    requires { length numbers.old ≡ most_numbers }
    ensures { numbers.new ≡ pick ended (stored count token numbers.old) numbers.old }
{
    let number = tokens::number(token);
    if ended & (fault_in(count, number.fault) == 0) {
        numbers[count] = number.value;
    }
}

// A token's fault, or 104 where its question has no room for one number more.
#[tactic(auto, unfolding(crate::specs::Asking::fault_in))]
fn fault_in(count: usize, fault: u8) -> u8
    ensures { result ≡ fault_in count fault }
{
    whole::or_else(fault, whole::unless(count < MOST, faults::TOO_MANY, 0))
}

// The state after a byte, by what the byte does to the token.
#[tactic(auto, unfolding(crate::specs::Asking::stepped, tokens::specs::Tokens::step_of))]
fn stepped(state: State, next: Next, b: u8) -> State
    requires { next ≡ step_of state.token b }
    ensures { result ≡ stepped state b }
{
    let token = next.token;
    if next.ended {
        return State {
            asked: finished(state.asked, state.line, state.token),
            token,
            line: line_after(state.line, b),
        };
    }
    State { token, ..state }
}

// The question once the token has ended.
fn finished(asked: Asked, line: u64, token: Token) -> Asked
    ensures { result ≡ finished asked line token }
{
    match token {
        Token::Between | Token::Comment => asked,
        Token::Word(code) => named(asked.count, line, code),
        Token::Sign | Token::Number(_) | Token::Below(_) | Token::Other => with_token(
            asked, line, token,
        ),
    }
}

// A question begins by a word, or by none.
#[tactic(auto, unfolding(crate::specs::Asking::named))]
fn named(count: usize, line: u64, code: u64) -> Asked
    ensures { result ≡ named count line code }
{
    if code < tokens::NO_WORD {
        return Asked {
            opened: true,
            word: code,
            line,
            count,
            ..nothing()
        };
    }
    Asked {
        opened: true,
        word: 0,
        line,
        count,
        fault: faults::NOT_QUESTION,
        place: line,
    }
}

// A token that is no word joins its question.
#[tactic(auto, unfolding(crate::specs::Asking::with_token))]
fn with_token(asked: Asked, line: u64, token: Token) -> Asked
    ensures { result ≡ with_token asked line token }
{
    let number = tokens::number(token);
    let fault = fault_in(asked.count, number.fault);
    let question = asking(asked, line);
    if fault == 0 {
        return Asked {
            count: question.count + 1,
            ..question
        };
    }
    faulted(question, fault, line)
}

// The question that a number belongs to.
#[tactic(auto, unfolding(crate::specs::Asking::asking))]
fn asking(asked: Asked, line: u64) -> Asked
    ensures { result ≡ asking asked line }
{
    if asked.opened {
        return asked;
    }
    named(asked.count, line, tokens::NO_WORD)
}

// The question with a fault, unless it has one already.
#[tactic(auto, unfolding(crate::specs::Asking::faulted))]
fn faulted(asked: Asked, fault: u8, line: u64) -> Asked
    ensures { result ≡ faulted asked fault line }
{
    if asked.fault == 0 {
        return Asked {
            fault,
            place: line,
            ..asked
        };
    }
    asked
}

#[tactic(auto, unfolding(crate::specs::Asking::line_after))]
fn line_after(line: u64, b: u8) -> u64
    ensures { result ≡ line_after line b }
{
    if b == b'\n' {
        line.saturating_add(1)
    } else {
        line
    }
}

// The last token ends, and its question.
#[tactic(auto, unfolding(crate::specs::Asking::last_state))]
fn last(state: State, numbers: &mut [i64]) -> Reached
    requires { length numbers.old ≡ most_numbers }
    ensures answer { result ≡ last_of state }
    ensures run { numbers.new ≡ last_run state numbers.old }
{
    let asked = state.asked;
    let token = state.token;
    let line = state.line;
    store(true, asked.count, token, numbers);
    let last = finished(asked, line, token);
    let state = State {
        asked: last,
        token: Token::Between,
        line,
    };
    reach(state, 0, last.opened)
}
