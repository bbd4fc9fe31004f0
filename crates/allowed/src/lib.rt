// Which plans the rules allow: those that a first record of the kind can name. A state may be handed in
// with any numbers, so all of them are tested: ranges, agreements, and 0 for what the kind does not use
// (document 01, "The record and the walk", step 1).
#![tactic(auto)]

ghost use Rattle.std.specs.Prelude.{◌≡◌, true};
ghost use Rattle.plan.specs.Plan.{all_zero, slots_zero?, image_zero?, zero_plan?, slot_good, slots_good};
ghost use Rattle.plan.specs.Tables.{rows};
ghost use Rattle.plan.specs.Plan.{volume_good, leader_good, image_ranges, image_agrees, image_good, plan_good};

use plan::Plan;

// Every number is 0.
fn zeros(a: &[u64]) -> bool
    ensures { result ≡ all_zero a.now }
{
    a.iter().all(|&x| x == 0)
}

// The numbers that only a leader has are 0.
fn slots_zero(p: Plan) -> bool
    ensures { result ≡ slots_zero? p }
{
    zeros(&p.counts) && zeros(&p.lengths)
}

// The numbers that only an image has are 0.
fn image_zero(p: Plan) -> bool
    ensures { result ≡ image_zero? p }
{
    p.n == 0 && p.l == 0 && p.w == 0 && p.d == 0 && p.s == 0 && p.sort == 0
}

// Every number of the plan is 0.
pub fn is_zero(p: Plan) -> bool
    ensures { result ≡ zero_plan? p }
{
    p.pointers == 0 && slots_zero(p) && image_zero(p)
}

// A slot's count and length are in range; the length is 0 where the count is.
fn slot_good(i: u64, count: u64, length: u64) -> bool
    ensures { result ≡ slot_good i count length }
{
    let row = plan::slot_at(i);
    if !words::within(row.least, count, row.most) {
        return false;
    }
    if count == 0 {
        return length == 0;
    }
    words::within(row.shortest, length, row.longest)
}

fn slots_good(counts: [u64; plan::ROWS], lengths: [u64; plan::ROWS]) -> bool
    ensures { result ≡ slots_good 0 rows counts lengths }
{
    for i in 0..plan::ROWS {
        if !slot_good(i as u64, counts[i], lengths[i]) {
            return false;
        }
    }
    true
}

#[tactic(auto, unfolding(plan::specs::Plan::volume_good))]
fn volume_good(p: Plan) -> bool
    ensures { result ≡ volume_good p }
{
    words::within(3, p.pointers, 6) && slots_zero(p) && image_zero(p)
}

#[tactic(auto, unfolding(plan::specs::Plan::leader_good))]
fn leader_good(p: Plan) -> bool
    ensures { result ≡ leader_good p }
{
    p.pointers == 0 && slots_good(p.counts, p.lengths) && image_zero(p)
}

fn image_ranges(p: Plan) -> bool
    ensures { result ≡ image_ranges p }
{
    words::within(1, p.n, 999999)
        && words::within(1, p.l, 999999)
        && words::within(1, p.w, 99999999)
        && words::within(1, p.d, 99999999)
        && words::within(0, p.s, 9999)
        && words::within(0, p.sort, plan::COMPLEX)
}

// The agreements are computed only within the ranges, where no sum can wrap.
fn image_agrees(p: Plan) -> bool
    requires { image_ranges p ≡ true }
    ensures { result ≡ image_agrees p }
{
    let sort = plan::sort_at(p.sort);
    p.d == sort.group * p.w && sort.ahead + p.d + p.s <= p.l
}

// The ranges come first, so that a plan that is none costs no look at the leader's numbers (docs/SPEED.md).
#[tactic(auto, using(words::proofs::Laws::both_false), unfolding(plan::specs::Plan::image_good))]
fn image_good(p: Plan) -> bool
    ensures { result ≡ image_good p }
{
    image_ranges(p) && p.pointers == 0 && slots_zero(p) && image_agrees(p)
}

// The plan is one that a first record of that kind can name: ranges, agreements, unused numbers 0.
pub fn good(kind: u64, p: Plan) -> bool
    ensures { result ≡ plan_good kind p }
{
    match kind {
        plan::VOLUME => volume_good(p),
        plan::LEADER => leader_good(p),
        plan::IMAGE => image_good(p),
        _ => kind == plan::TRAILER && is_zero(p),
    }
}
