// The walk over a file's records (document 01, "The record and the walk"): a state that is handed in
// and handed back, turns in the page's order, a record budget for each call. Whatever it is handed,
// it ends with an answer; a refused or waiting record leaves the state before it.
#![tactic(auto)]

ghost use Rattle.std.specs.Prelude.{◌≡◌, ◌+◌, ◌≤◌, true};
ghost use Rattle.plan.specs.Plan.{records_most};
ghost use Rattle.walk.specs.State.{fresh, good_state, start_of};
ghost use Rattle.walk.specs.Ahead.{Ahead};
ghost use Rattle.walk.specs.Walk.{next_with, bad_stop, walk_of, begin_of};

use plan::Plan;
use turns::Stop;
use words::Refusal;

// The walk's state: file kind, records passed, and the plan taken from the file's first record.
#[derive(Clone, Copy)]
pub struct State {
    pub kind: u64,
    pub passed: u64,
    pub plan: Plan,
}

// A call's answer: the moved state, how many records this call passed, and why it stopped.
#[derive(Clone, Copy)]
pub struct Walked {
    pub state: State,
    pub count: u64,
    pub stop: Stop,
}

// A bad state's refusal.
#[tactic(auto, unfolding(crate::specs::Walk::bad_stop))]
fn bad_stop() -> Stop
    ensures { result ≡ bad_stop }
{
    Stop::Refused(words::bare(11))
}

impl State {
    // The state of no walk: all zeros.
    pub fn none() -> State
        ensures { result ≡ fresh 0 }
    {
        State {
            kind: 0,
            passed: 0,
            plan: plan::zero(),
        }
    }

    // A walk over a file of that kind is begun: its fresh state, or refusal 1 for a kind that there is
    // not. It does not look at the state it is called on.
    #[tactic(auto, unfolding(crate::specs::Walk::begin_of))]
    pub fn begin(self, kind: u64) -> Result<State, Refusal>
        ensures { result ≡ begin_of kind }
    {
        if words::within(1, kind, 4) {
            return Ok(State {
                kind,
                ..State::none()
            });
        }
        Err(words::bare(1))
    }

    // The state rule.
    #[tactic(auto, unfolding(crate::specs::State::good_state))]
    fn good(self) -> bool
        ensures { result ≡ good_state self }
    {
        if !words::within(1, self.kind, 4) {
            return false;
        }
        if self.passed == 0 {
            return allowed::is_zero(self.plan);
        }
        allowed::good(self.kind, self.plan) && self.passed <= plan::total(self.kind, self.plan)
    }

    // The state behind the next record, which has passed and left that plan.
    fn next(self, p: Plan) -> State
        requires { self.passed ≤ records_most + 1 }
        ensures { result ≡ next_with self p }
    {
        State {
            kind: self.kind,
            passed: self.passed + 1,
            plan: p,
        }
    }

    // How many records ahead pass one after the other, at most that many. Only an image's lines are
    // looked at: their turns differ in the line number alone, so what they share is looked up once.
    fn ahead(self, b: &[u8], most: u64) -> u64
        requires { good_state self ≡ true }
        ensures { Ahead self b.now most result }
    {
        if self.kind != plan::IMAGE || self.passed == 0 {
            return 0;
        }
        let p = self.plan;
        let left = p.n + 1 - self.passed;
        ahead::lines_ahead(p.sort, p.w, p.l, self.passed, left.min(most), b)
    }

    // The place in the file of the next record's first byte: what a caller hands over begins there.
    // 0 for a bad state.
    #[tactic(auto, unfolding(crate::specs::State::start_of))]
    pub fn start(self) -> u64
        ensures { result ≡ start_of self }
    {
        if self.good() {
            return plan::due_of(self.kind, self.plan, self.passed).start;
        }
        0
    }

    // The walk: bytes from the next record's first byte on, whether the file is closed, and how many
    // records may be passed.
    pub fn walk(self, bytes: &[u8], closed: bool, budget: u64) -> Walked
        ensures { result ≡ walk_of budget self bytes.now closed }
    {
        let mut st = self;
        if !st.good() {
            return Walked {
                state: st,
                count: 0,
                stop: bad_stop(),
            };
        }
        let mut n: u64 = 0;
        let mut at: usize = 0;
        // kept: a turn passes a record and the lines behind it at once, so the count moves by more than one.
        while n < budget {
            let rest = &bytes[at..];
            let due = plan::due_of(st.kind, st.plan, st.passed);
            let behind = match turns::judge(st.kind, st.plan, st.passed, due, rest, closed) {
                Ok(plan) => plan,
                Err(stop) => {
                    return Walked {
                        state: st,
                        count: n,
                        stop,
                    };
                }
            };
            at += due.length as usize;
            st = st.next(behind);
            n += 1;
            let c = st.ahead(&bytes[at..], budget - n);
            at += (c * st.plan.l) as usize;
            st.passed += c;
            n += c;
        }
        Walked {
            state: st,
            count: n,
            stop: Stop::Pause,
        }
    }

    // One turn: the walk with a budget of 1.
    pub fn step(self, bytes: &[u8], closed: bool) -> Walked
        ensures { result ≡ walk_of 1 self bytes.now closed }
    {
        self.walk(bytes, closed, 1)
    }
}
