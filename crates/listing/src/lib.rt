// The listing of an image (document 01, "Lines, rows, sets"): standard input to rows. A turn says what
// to print of the bytes held of the next record, or how many more it wants; what each row says is proved
// here, how it is spelt in `rows`; `streams` reads and writes.
#![tactic(auto)]

ghost use Rattle.std.specs.Prelude.{◌≡◌};
ghost use Rattle.plan.specs.Plan.{image};
ghost use Rattle.walk.specs.State.{fresh};
ghost use Rattle.listing.specs.Rows.{passed_row, wanted, too_long, told_of};

use rows::Row;
use turns::Stop;
use walk::State;

// The longest record that is held.
const LONGEST: u64 = 32768;

// What a turn says: so many more bytes are wanted; a row, and the listing goes on; its last row.
#[derive(Clone, Copy)]
pub enum Say {
    Want(u64),
    Next(Row),
    Last(Row),
}

#[derive(Clone, Copy)]
pub struct Told {
    pub state: State,
    pub say: Say,
}

// The state before the image's first record. The first call asks with a budget of 0, which passes
// nothing and pauses.
pub fn begin() -> State
    ensures { result ≡ fresh image }
{
    match State::none().begin(plan::IMAGE) {
        Ok(st) => st.walk(b"", false, 0).state,
        Err(_) => State::none(),
    }
}

// The row of a record that has passed: the first, or a line.
#[tactic(auto, unfolding(crate::specs::Rows::passed_row))]
fn passed_row(st: State, r: &[u8], after: State) -> Row
    ensures { result ≡ passed_row st r.now after }
{
    if st.passed == 0 {
        return Row::Image(after.plan.n, after.plan.w);
    }
    let f = image::fills_of(r);
    Row::Line(st.passed, f.left, f.data, f.right)
}

// Behind the last record one byte is asked for, to see whether more come.
#[tactic(auto, unfolding(crate::specs::Rows::wanted))]
fn want(n: u64) -> u64
    ensures { result ≡ wanted n }
{
    n.max(1)
}

// Behind the first record: no line of this image can be held.
#[tactic(auto, unfolding(crate::specs::Rows::too_long))]
fn too_long(st: State) -> bool
    ensures { result ≡ too_long st }
{
    st.passed != 0 && LONGEST < st.plan.l
}

// One turn, on the bytes held of the next record; closed once the input has ended.
pub fn turn(st: State, held: &[u8], closed: bool) -> Told
    ensures { result ≡ told_of st held.now closed }
{
    if too_long(st) {
        return Told {
            state: st,
            say: Say::Last(Row::TooLong),
        };
    }
    let walked = st.step(held, closed);
    let after = walked.state;
    match walked.stop {
        Stop::Wait(n) => Told {
            state: after,
            say: Say::Want(want(n)),
        },
        Stop::Pause => Told {
            state: after,
            say: Say::Next(passed_row(st, held, after)),
        },
        Stop::Complete => Told {
            state: after,
            say: Say::Last(Row::Complete(after.passed, after.start())),
        },
        Stop::Refused(r) => Told {
            state: after,
            say: Say::Last(Row::Refused(r)),
        },
    }
}
