// The program `desk` between its input and its output: bytes in, chunk after chunk; a question that ends is answered.
#![tactic(auto)]

ghost use Rattle.std.specs.Prelude.{◌≤◌, ◌≡◌, length};
ghost use Rattle.text.specs.Text.{put};
ghost use Rattle.question.specs.Inner.{room};
ghost use Rattle.replies.specs.Inner.{reply_of, tell_text, reached_text, replied_to, runs_fit_in, unreplied};
ghost use Rattle.replies.specs.Inner.{replied_of, replied_run, replied_out, last_replied, last_replied_run, last_replied_out};

use asked::{Asked, Reached, State};
use units::refusals;

// What a chunk or the input's end comes to: the next state, how many bytes were taken, and how many of an answer were
// written.
#[derive(Clone, Copy)]
pub struct Replied {
    pub refusal: u8,
    pub state: State,
    pub taken: usize,
    pub written: usize,
}

// Takes the bytes up to the end of a question and answers it, or takes all of them.
#[tactic(auto, unfolding(crate::specs::Inner::replied_of, crate::specs::Inner::replied_run, crate::specs::Inner::replied_out))]
pub fn feed(state: State, chunk: &[u8], numbers: &mut [i64], out: &mut [u8]) -> Replied
    ensures answer { result ≡ replied_of state chunk.now numbers.old out.old }
    ensures run { numbers.new ≡ replied_run state chunk.now numbers.old out.old }
    ensures text { out.new ≡ replied_out state chunk.now numbers.old out.old }
    ensures within { (result.taken ≤ length chunk.now) × (result.written ≤ length out.old) }
{
    if !fits(numbers.len(), out.len()) {
        return unreplied(state);
    }
    let reached = asked::read(state, chunk, numbers);
    replied_to(reached, numbers, out)
}

// The input's end: the question that is open is answered.
#[tactic(auto, unfolding(crate::specs::Inner::last_replied, crate::specs::Inner::last_replied_run, crate::specs::Inner::last_replied_out))]
pub fn finish(state: State, numbers: &mut [i64], out: &mut [u8]) -> Replied
    ensures answer { result ≡ last_replied state numbers.old out.old }
    ensures run { numbers.new ≡ last_replied_run state numbers.old out.old }
    ensures text { out.new ≡ last_replied_out state numbers.old out.old }
    ensures within { result.written ≤ length out.old }
{
    if !fits(numbers.len(), out.len()) {
        return unreplied(state);
    }
    let reached = asked::end(state, numbers);
    replied_to(reached, numbers, out)
}

#[tactic(auto, unfolding(crate::specs::Inner::runs_fit_in))]
fn fits(numbers: usize, out: usize) -> bool
    ensures { result ≡ runs_fit_in numbers out }
{
    (numbers == asked::MOST) & (question::ROOM <= out)
}

fn unreplied(state: State) -> Replied
    ensures { result ≡ unreplied state }
{
    Replied {
        refusal: refusals::WRONG_LENGTH,
        state,
        taken: 0,
        written: 0,
    }
}

// Answers the question where one has ended, and goes on from what was reached.
#[tactic(auto, unfolding(crate::specs::Inner::replied_to, crate::specs::Inner::reached_text))]
fn replied_to(reached: Reached, numbers: &[i64], out: &mut [u8]) -> Replied
    requires { room ≤ length out.old }
    ensures answer { result ≡ replied_to reached numbers.now }
    ensures text { out.new ≡ put out.old 0 (reached_text reached numbers.now) }
    ensures within { result.written ≤ length out.old }
{
    let written = tell(reached.ended, reached.asked, numbers, out);
    Replied {
        refusal: 0,
        state: reached.state,
        taken: reached.taken,
        written,
    }
}

// The reply where a question has ended, else nothing.
#[tactic(auto, using(text::proofs::Places::put_nothing), unfolding(crate::specs::Inner::tell_text))]
fn tell(ended: bool, asked: Asked, numbers: &[i64], out: &mut [u8]) -> usize
    requires { room ≤ length out.old }
    ensures place { result ≡ length (tell_text ended asked numbers.now) }
    ensures text { out.new ≡ put out.old 0 (tell_text ended asked numbers.now) }
    ensures short { result ≤ length out.old }
{
    if ended {
        return put_reply(asked, numbers, out);
    }
    0
}

// The reply to a question, by its numbers in the run.
fn put_reply(asked: Asked, numbers: &[i64], out: &mut [u8]) -> usize
    requires { room ≤ length out.old }
    ensures place { result ≡ length (reply_of asked numbers.now) }
    ensures text { out.new ≡ put out.old 0 (reply_of asked numbers.now) }
    ensures short { result ≤ length out.old }
{
    let count = asked.count.min(numbers.len());
    question::reply(
        asked.word,
        asked.line,
        asked.fault,
        asked.place,
        &numbers[..count],
        out,
    )
    .written
}
