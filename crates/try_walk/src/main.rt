// Runs examples of the walk. The commands come on standard input, one to a line; tests/examples/walk.py makes
// them and what is to be answered. The program holds 65,536 bytes and one state.
//
//   # TEXT                       is printed as it stands
//   c VALUE                      every byte held becomes VALUE
//   p BYTE:TEXT                  TEXT is put from byte BYTE (from 1) on
//   b BYTE VALUE                 one byte
//   q BYTE VALUE                 a four-byte number, high byte first
//   g KIND                       the state is begun
//   w FROM LENGTH CLOSED BUDGET  the walk over LENGTH bytes from place FROM (from 0) on
//   t FROM LENGTH CLOSED         one step
//   s                            the place of the next record's first byte
//   v                            the state's 43 numbers
//   n INDEX VALUE                one of them is set
#![tactic(auto)]

use std::fmt;
use try_commands::{Numbers, Refused, part};
use turns::Stop;
use walk::{State, Walked};

// How many bytes of commands are read.
const READ: usize = 262144;

// How many bytes are held.
const HELD: usize = 65536;

// Why a walk stopped, as it is printed.
#[derive(Drop)]
struct Stopped(Stop);

impl fmt::Display for Stopped {
    fn fmt<W: fmt::Write>(&self, f: &mut fmt::Formatter<W>) -> fmt::Result {
        match self.0 {
            Stop::Wait(bytes) => write!(f, "WAIT {bytes}"),
            Stop::Pause => f.write_str("PAUSE"),
            Stop::Complete => f.write_str("COMPLETE"),
            Stop::Refused(refusal) => write!(f, "{}", Refused(refusal)),
        }
    }
}

// A state's numbers, as C holds them.
fn numbers_of(state: State) -> [u64; c_state::NUMBERS] {
    let mut numbers = [0; c_state::NUMBERS];
    c_state::put(state, &mut numbers);
    numbers
}

fn print_state<P: Print>(rt: &P, state: State) -> std::io::Result<()> {
    print!(rt; "STATE")?;
    for number in numbers_of(state) {
        print!(rt; " {number}")?;
    }
    println!(rt;)
}

// The state with one of its numbers set; one behind the last is the last.
fn with_number(state: State, index: u64, number: u64) -> State {
    let mut numbers = numbers_of(state);
    numbers[(index as usize).min(c_state::NUMBERS - 1)] = number;
    c_state::get(&numbers)
}

// A begun walk; where there is no such kind, the state of no walk.
fn begin<P: Print>(rt: &P, state: &mut State, kind: u64) -> std::io::Result<()> {
    match state.begin(kind) {
        Ok(begun) => {
            *state = begun;
            println!(rt; "BEGUN")
        }
        Err(refusal) => {
            *state = State::none();
            rt.println(Refused(refusal))
        }
    }
}

fn print_walked<P: Print>(rt: &P, walked: Walked) -> std::io::Result<()> {
    let Walked { state, count, stop } = walked;
    println!(rt; "{} COUNT {count} PASSED {}", Stopped(stop), state.passed)
}

// A walk, or one step where no budget is named.
fn walk<P: Print>(
    rt: &P,
    state: &mut State,
    op: u8,
    mut numbers: Numbers<'_>,
    held: &[u8],
) -> std::io::Result<()> {
    let from = numbers.number();
    let bytes = part(held, from, numbers.number());
    let closed = numbers.number() != 0;
    let walked = if op == b't' {
        state.step(bytes, closed)
    } else {
        state.walk(bytes, closed, numbers.number())
    };
    *state = walked.state;
    print_walked(rt, walked)
}

// The commands that ask the state, or set it.
fn ask<P: Print>(
    rt: &P,
    state: &mut State,
    op: u8,
    mut numbers: Numbers<'_>,
    held: &[u8],
) -> std::io::Result<()> {
    match op {
        b'g' => begin(rt, state, numbers.number())?,
        b'w' | b't' => walk(rt, state, op, numbers, held)?,
        b's' => println!(rt; "START {}", state.start())?,
        b'v' => print_state(rt, *state)?,
        b'n' => *state = with_number(*state, numbers.number(), numbers.number()),
        _ => (),
    }
    Ok(())
}

// What could not be read or written is told to nobody, and the exit status is 0: the stored answers tell.
fn main(rt: HostRuntime) {
    let mut input = [0; READ];
    let mut bytes = [0; HELD];
    let mut state = State::none();
    try_commands::run_in(&rt, &mut input, &mut bytes, |op, numbers, held| {
        ask(&rt, &mut state, op, numbers, held)
    });
}
