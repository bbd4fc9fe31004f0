// A walk's state as C holds it (include/seobangyu.h): 43 numbers, which any caller may keep and hand in
// again. Any 43 numbers are a state; whether it is a good one is the walk's to say.
#![tactic(auto)]

ghost use Rattle.std.specs.Prelude.{◌≡◌, ◌++◌, ◌≤◌, length, drop};
ghost use Rattle.c_state.specs.Numbers.{numbers_of, every_second, state_in};

use plan::Plan;
use walk::State;

// How many numbers a state has.
pub const NUMBERS: usize = 43;

// A state's numbers to the start of the state array, each by a store of its own; later numbers stay.
pub fn put(st: State, state: &mut [u64])
    requires { 43 ≤ length state.old }
    ensures { state.new ≡ numbers_of st ++ drop 43 state.old }
{
    state[0] = st.kind;
    state[1] = st.passed;
    state[2] = st.plan.pointers;
    for j in 0..plan::ROWS {
        state[3 + 2 * j] = st.plan.counts[j];
        state[4 + 2 * j] = st.plan.lengths[j];
    }
    state[37] = st.plan.n;
    state[38] = st.plan.l;
    state[39] = st.plan.w;
    state[40] = st.plan.d;
    state[41] = st.plan.s;
    state[42] = st.plan.sort;
}

// Every second number from number i on: the counts, or the lengths.
fn every_second(i: usize, state: &[u64]) -> [u64; plan::ROWS]
    requires { (i ≤ 4) × (43 ≤ length state.now) }
    ensures { result ≡ every_second i state.now }
{
    let mut a = [0u64; plan::ROWS];
    for j in 0..plan::ROWS {
        a[j] = state[i + 2 * j];
    }
    a
}

// The state that the numbers are.
pub fn get(state: &[u64]) -> State
    requires { 43 ≤ length state.now }
    ensures { result ≡ state_in state.now }
{
    let counts = every_second(3, state);
    let lengths = every_second(4, state);
    let plan = Plan {
        pointers: state[2],
        counts,
        lengths,
        n: state[37],
        l: state[38],
        w: state[39],
        d: state[40],
        s: state[41],
        sort: state[42],
    };
    State {
        kind: state[0],
        passed: state[1],
        plan,
    }
}
