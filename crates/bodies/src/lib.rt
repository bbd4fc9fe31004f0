// What each record's body must hold, beyond its header: document 01's rules as tests in its order (fixed
// texts, number fields, agreements), of the record that is due; and the plan's numbers that a first record
// names, out of the same reading. Each kind's rules stand in a crate of their own; a trailer has only the
// first record's text. Places are in the record, from 0.
#![tactic(auto)]

ghost use Rattle.std.specs.Prelude.{◌≡◌};
ghost use Rattle.plan.specs.Plan.{volume, leader, image, trailer};
ghost use Rattle.verdicts.specs.Tests.{first_fault};
ghost use Rattle.bodies.specs.Bodies.{body_tests};
ghost use Rattle.bodies.specs.Named.{first_of, found_of};

use plan::{Plan, Runs};
use verdicts::Verdict;
use words::Refusal;

// A directory's descriptor.
#[tactic(auto, unfolding(crate::specs::Named::first_of, crate::specs::Named::plan_of, crate::specs::Bodies::first_tests, volume::specs::Volume::described_of))]
fn of_volume(r: &[u8]) -> Result<Plan, Refusal>
    ensures { result ≡ first_of volume r.now }
{
    let pointers = volume::descriptor(r)?;
    Ok(Plan {
        pointers,
        ..plan::zero()
    })
}

// A leader's descriptor.
#[tactic(auto, unfolding(crate::specs::Named::first_of, crate::specs::Named::plan_of, crate::specs::Bodies::first_tests, leader::specs::Leader::described_of))]
fn of_leader(r: &[u8]) -> Result<Plan, Refusal>
    ensures { result ≡ first_of leader r.now }
{
    let Runs { counts, lengths } = leader::descriptor(r)?;
    Ok(Plan {
        counts,
        lengths,
        ..plan::zero()
    })
}

// An image's descriptor.
#[tactic(auto, unfolding(crate::specs::Named::first_of, crate::specs::Named::plan_of, crate::specs::Bodies::first_tests, image::specs::Image::described_of))]
pub fn of_image(r: &[u8]) -> Result<Plan, Refusal>
    ensures { result ≡ first_of image r.now }
{
    let x = image::descriptor(r)?;
    Ok(Plan {
        n: x.n,
        l: x.l,
        w: x.w,
        d: x.d,
        s: x.s,
        sort: x.sort,
        ..plan::zero()
    })
}

// A trailer, which names no numbers.
#[tactic(auto, unfolding(crate::specs::Named::first_of, crate::specs::Named::plan_of, crate::specs::Bodies::first_tests, crate::specs::Bodies::trailer_tests))]
fn of_trailer(r: &[u8]) -> Result<Plan, Refusal>
    ensures { result ≡ first_of trailer r.now }
{
    verdicts::first_text(r)?;
    Ok(plan::zero())
}

// What the first record of a file of that kind names, read once: the plan, or its first fault.
#[tactic(auto, unfolding(crate::specs::Named::first_of, crate::specs::Named::plan_of, crate::specs::Bodies::first_tests))]
fn first(kind: u64, r: &[u8]) -> Result<Plan, Refusal>
    ensures { result ≡ first_of kind r.now }
{
    match kind {
        plan::VOLUME => of_volume(r),
        plan::LEADER => of_leader(r),
        plan::IMAGE => of_image(r),
        _ => of_trailer(r),
    }
}

// What is found in record k's body (k from 0), which is of that run and not the first.
#[tactic(auto, unfolding(crate::specs::Bodies::body_tests, crate::specs::Bodies::trailer_tests, image::specs::Image::image_record))]
fn later(kind: u64, run: u64, p: Plan, k: u64, r: &[u8]) -> Verdict
    requires { run ≡ 0 → ⊥ }
    ensures { result ≡ first_fault (body_tests kind run p k r.now) }
{
    match kind {
        plan::VOLUME => volume::record(run, p.pointers, k, r),
        plan::LEADER => leader::record(run, r),
        plan::IMAGE => image::line(p.w, k, r),
        _ => verdicts::first_text(r),
    }
}

// What is found in record k's body (k from 0), which is of that run, run 0 being the first record: the plan
// behind it, or its first fault. A first record names the plan; behind any other it is as it was.
#[tactic(auto, unfolding(crate::specs::Named::found_of, crate::specs::Bodies::body_of))]
pub fn judge(kind: u64, run: u64, p: Plan, k: u64, r: &[u8]) -> Result<Plan, Refusal>
    ensures { result ≡ found_of kind run p k r.now }
{
    if run == 0 {
        return first(kind, r);
    }
    later(kind, run, p, k, r)?;
    Ok(p)
}
