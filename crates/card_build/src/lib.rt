// The card builder (document 02, No. 1): from a closed image and its closed leader the card that `cards`
// reads. The image's refusal, the leader's, then 37; on any of them nothing is written.
#![tactic(auto)]

ghost use Rattle.std.specs.Prelude.{◌≡◌, true, ◌++◌, ◌+◌, ◌*◌, ◌≤◌, length};
ghost use Rattle.words.specs.Tests.{within_of};
ghost use Rattle.writing.specs.Writing.{written, four_of};
ghost use Rattle.plan.specs.Plan.{leader, run_counts, run_lengths, Small, total_of};
ghost use Rattle.card_build.specs.Build.{closed, named_by, first_bytes, line_bytes, leader_bytes, lines_bytes, leaders_bytes, card_bytes, card_long};
ghost use Rattle.card_build.specs.Build.{fitted_of, fitted_card, built_of, card_of, Planned};

use plan::Plan;
use turns::Stop;
use walk::State;
use words::Refusal;

// How many bytes the card has; or why there is none.
pub type Built = Result<u64, Refusal>;

// One more than the most records that a plan can have: a walk with this budget does not pause.
const BUDGET: u64 = 17000002;

// The plan that a whole file names, or its refusal: its closed walk.
fn named(kind: u64, bytes: &[u8]) -> Result<Plan, Refusal>
    requires { within_of 1 kind 4 ≡ true }
    ensures { result ≡ named_by (closed kind bytes.now) }
{
    let fresh = State::none().begin(kind)?;
    let walked = fresh.walk(bytes, true, BUDGET);
    if let Stop::Refused(r) = walked.stop {
        return Err(r);
    }
    Ok(walked.state.plan)
}

// Two numbers of four bytes each.
#[tactic(auto, using(writing::proofs::WrittenLaws::written_on))]
fn put_two(out: &mut [u8], at: usize, a: u64, b: u64)
    requires { at + 8 ≤ length out.old }
    ensures { out.new ≡ written out.old at (four_of a ++ four_of b) }
{
    writing::four(out, at, a);
    writing::four(out, at + 4, b);
}

// Kind 1: n, L, w, d.
fn put_first(p: Plan, out: &mut [u8])
    requires { 17 ≤ length out.old }
    ensures { out.new ≡ written out.old 0 (first_bytes p) }
{
    out[0] = 1;
    put_two(out, 1, p.n, p.l);
    put_two(out, 9, p.w, p.d);
}

// Kind 2: line number, left fill, data count.
fn put_line(out: &mut [u8], at: usize, k: u64, left: u64, count: u64)
    requires { at + 13 ≤ length out.old }
    ensures { out.new ≡ written out.old at (line_bytes k left count) }
{
    out[at] = 2;
    writing::four(out, at + 1, k);
    put_two(out, at + 5, left, count);
}

// Kind 3: the leader record's ordinal, start and length.
#[tactic(auto, using(crate::proofs::BuildLaws::leader_put))]
fn put_leader(out: &mut [u8], at: usize, k: u64, start: u64, long: u64)
    requires { at + 10 ≤ length out.old }
    ensures { out.new ≡ written out.old at (leader_bytes k start long) }
{
    out[at] = 3;
    out[at + 1] = (k % 256) as u8;
    put_two(out, at + 2, start, long);
}

// An entry for every line, behind the first: the numbers that its record says.
fn put_lines(image: &[u8], p: Plan, out: &mut [u8])
    requires { (p.n ≤ 999999) × (p.l ≤ 99999999) × (17 + 13 * p.n ≤ length out.old) }
    ensures { out.new ≡ written out.old 17 (lines_bytes p.n 0 720 p.l image.now) }
{
    for k in 0..p.n {
        let at = (720 + k * p.l) as usize;
        let left = words::four(image, at + words::place(21));
        let data = words::four(image, at + words::place(25));
        put_line(out, 17 + 13 * k as usize, k + 1, left, data);
    }
}

// An entry for every leader record, from a place on: where the walk has it, and how long.
fn put_leaders(q: Plan, records: u64, out: &mut [u8], from: usize)
    requires small { Small (run_counts leader q) (run_lengths leader q) }
    requires records_bound { (records ≤ total_of leader q) × (from + 10 * records ≤ length out.old) }
    ensures { out.new ≡ written out.old from (leaders_bytes records 0 q) }
{
    for k in 0..records {
        let due = plan::due_of(plan::LEADER, q, k);
        put_leader(out, from + 10 * k as usize, k + 1, due.start, due.length);
    }
}

// The card of two plans: 37 where it does not fit.
fn fitted(image: &[u8], p: Plan, q: Plan, card: &mut [u8]) -> Built
    requires { Planned p q }
    ensures value { result ≡ fitted_of p q (length card.old) }
    ensures card_after { card.new ≡ fitted_card p q image.now card.old }
{
    let records = plan::total(plan::LEADER, q);
    let long = 17 + 13 * p.n + 10 * records;
    if (card.len() as u64) < long {
        return Err(words::bare(37));
    }
    let lines = 13 * p.n as usize;
    put_first(p, card);
    put_lines(image, p, card);
    put_leaders(q, records, card, 17 + lines);
    Ok(long)
}

// Builds the card of an image and its leader, both whole, at the start of the lent bytes; those behind
// it stay.
pub fn build(image: &[u8], leader: &[u8], card: &mut [u8]) -> Built
    ensures value { result ≡ built_of image.now leader.now (length card.old) }
    ensures card_after { card.new ≡ card_of image.now leader.now card.old }
{
    let scene = named(plan::IMAGE, image)?;
    let notes = named(plan::LEADER, leader)?;
    fitted(image, scene, notes, card)
}
