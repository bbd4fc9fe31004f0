// A turn of the walk, once its state is good and its budget is not used up (document 01, "The record and
// the walk", steps 3 to 7): the record that is due is passed, waited for or refused. No state is kept or
// moved here: what a turn needs of it is handed in.
#![tactic(auto)]

ghost use Rattle.std.specs.Prelude.{◌≡◌, ◌≤◌, OnOk};
ghost use Rattle.plan.specs.Plan.{run_counts, run_lengths, total_of, Small, Placed, records_most};
ghost use Rattle.turns.specs.Turn.{Near, refused_at, ended_of, short_of, passed_of, judged_of};

use plan::{Due, Plan};
use words::Refusal;

// Which stop it was: wait with the count of missing bytes, budget used up, all there, refused.
#[derive(Clone, Copy)]
pub enum Stop {
    Wait(u64),
    Pause,
    Complete,
    Refused(Refusal),
}

// A refusal of the record with that ordinal, which starts there in the file.
fn refused(ordinal: u64, start: u64, number: u64, at: u64) -> Stop
    requires { (start ≤ 20000000000000) × (at ≤ 10000) }
    ensures { result ≡ refused_at ordinal start number at }
{
    Stop::Refused(Refusal {
        number,
        record: ordinal,
        place: start + at,
    })
}

// All planned records are passed.
#[tactic(auto, unfolding(crate::specs::Turn::ended_of))]
fn ended(ordinal: u64, start: u64, left: u64, closed: bool) -> Stop
    requires { start ≤ 20000000000000 }
    ensures { result ≡ ended_of ordinal start left closed }
{
    if left != 0 {
        return refused(ordinal, start, 9, 0);
    }
    if closed {
        return Stop::Complete;
    }
    Stop::Wait(0)
}

// Too few bytes have come.
#[tactic(auto, unfolding(crate::specs::Turn::short_of))]
fn short(ordinal: u64, start: u64, closed: bool, missing: u64) -> Stop
    requires { start ≤ 20000000000000 }
    ensures { result ≡ short_of ordinal start closed missing }
{
    if closed {
        return refused(ordinal, start, 2, 0);
    }
    Stop::Wait(missing)
}

// What was found in the record that is due, its fault as the refusal that stops the walk.
fn passed<T>(found: Result<T, Refusal>, d: Due) -> Result<T, Stop>
    requires { Placed d × Near found }
    ensures { result ≡ passed_of found d }
{
    match found {
        Ok(x) => Ok(x),
        Err(x) => Err(refused(d.ordinal, d.start, x.number, x.place)),
    }
}

// Steps 3 to 7 of a turn, for the record that is due behind k others: the record is passed, and that is the
// plan behind it, which a first record names; or the walk stops, and the plan is as it was.
pub fn judge(kind: u64, p: Plan, k: u64, d: Due, b: &[u8], closed: bool) -> Result<Plan, Stop>
    requires small { Small (run_counts kind p) (run_lengths kind p) }
    requires k_bound { (k ≤ total_of kind p) × Placed d }
    ensures value { result ≡ judged_of kind p k d b.now closed }
    ensures k_le_records_most { OnOk result (k ≤ records_most) }
{
    let len = b.len() as u64;
    if plan::total(kind, p) <= k {
        return Err(ended(d.ordinal, d.start, len, closed));
    }
    if len < 12 {
        return Err(short(d.ordinal, d.start, closed, 12 - len));
    }
    passed(headers::header(d.ordinal, d.codes, d.length, b), d)?;
    if len < d.length {
        return Err(short(d.ordinal, d.start, closed, d.length - len));
    }
    let due = d.length as usize;
    passed(bodies::judge(kind, d.run, p, k, &b[..due]), d)
}
