// The C boundary (include/seobangyu.h), the walk: begin, walk, start. A call assumes nothing of what it is
// handed: an array that is too short is answered with 0, and then nothing is written.
#![tactic(auto)]

ghost use Rattle.std.specs.Prelude.{◌≡◌};
ghost use Rattle.walk.specs.Said.{stop_as, beginning_as};
ghost use Rattle.c_answer.specs.Reply.{reply_of};
ghost use Rattle.c_answer.specs.Room.{answered};
ghost use Rattle.c_walk.specs.Calls.{room, begun_state, begun_answer, walked_state, walked_answer, start_in};

use c_answer::Reply;
use turns::Stop;
use walk::State;
use words::Refusal;

// How many numbers a state and an answer have.
const STATE: usize = c_state::NUMBERS;

const ANSWER: usize = c_answer::NUMBERS;

// What a begun walk answers.
fn beginning_reply(x: Result<State, Refusal>) -> Reply
    ensures { result ≡ reply_of (beginning_as x) 0 }
{
    match x {
        Ok(_) => c_answer::brief(4, 0, 0),
        Err(r) => c_answer::refusal(r, 0),
    }
}

// Why a walk stopped, and how many records it passed.
fn stop_reply(x: Stop, count: u64) -> Reply
    ensures { result ≡ reply_of (stop_as x) count }
{
    match x {
        Stop::Wait(n) => c_answer::brief(1, n, count),
        Stop::Pause => c_answer::brief(2, 0, count),
        Stop::Complete => c_answer::brief(3, 0, count),
        Stop::Refused(r) => c_answer::refusal(r, count),
    }
}

// A walk is begun: the fresh state of the kind, or refusal 1 and all zeros.
pub fn sbg_begin(kind: u64, state: &mut [u64], answer: &mut [u64]) -> u64
    ensures value { result ≡ answered (room state.old answer.old) }
    ensures state_after { state.new ≡ begun_state kind state.old answer.old }
    ensures answer_after { answer.new ≡ begun_answer kind state.old answer.old }
{
    if state.len() < STATE || answer.len() < ANSWER {
        return 0;
    }
    let begun = State::none().begin(kind);
    c_state::put(begun.unwrap_or(State::none()), state);
    c_answer::say(beginning_reply(begun), answer);
    1
}

// The walk: the state is moved in place; a budget of 1 is a step.
pub fn sbg_walk(
    state: &mut [u64],
    bytes: &[u8],
    closed: u64,
    budget: u64,
    answer: &mut [u64],
) -> u64
    ensures value { result ≡ answered (room state.old answer.old) }
    ensures state_after { state.new ≡ walked_state closed budget bytes.now state.old answer.old }
    ensures answer_after { answer.new ≡ walked_answer closed budget bytes.now state.old answer.old }
{
    if state.len() < STATE || answer.len() < ANSWER {
        return 0;
    }
    let st = c_state::get(state);
    let walked = st.walk(bytes, closed != 0, budget);
    c_state::put(walked.state, state);
    c_answer::say(stop_reply(walked.stop, walked.count), answer);
    1
}

// The place of the next record's first byte; 0 for a fresh, bad or short state.
pub fn sbg_start(state: &[u64]) -> u64
    ensures { result ≡ start_in state.now }
{
    if state.len() < STATE {
        return 0;
    }
    c_state::get(state).start()
}
