// The leader's records (document 01, "First records and what they promise"): its descriptor of fifteen
// slot pairs and eleven facility pairs, with the counts and lengths that it puts into the plan, each read
// once; and the listed fields of the summary and map records. Places are in the record, from 0.
#![tactic(auto)]

ghost use Rattle.std.specs.Prelude.{◌≡◌, ◌<◌, ◌≤◌, IfSome};
ghost use Rattle.plan.specs.Tables.{rows};
ghost use Rattle.verdicts.specs.Tests.{first_fault};
ghost use Rattle.leader.specs.Leader.{slot_row, pair_row, pair_of, pairs_of, described_of, fields_tests, leader_record};

use decimal::Form;
use plan::Runs;
use verdicts::Verdict;
use words::Refusal;

// A pair of count and length in the leader's descriptor: first byte, the length's form, and the row of
// the plan that takes its numbers (none where the slot is not admitted).
#[derive(Clone, Copy)]
pub struct Pair {
    pub byte: usize,
    pub form: Form,
    pub row: Option<usize>,
}

// What a pair holds: its count and its length.
#[derive(Clone, Copy)]
struct Held {
    count: u64,
    length: u64,
}

// The row of the plan for slot i + 1. Slots 6 and 8 to 15 are not admitted.
fn slot_row(i: usize) -> Option<usize>
    ensures { result ≡ slot_row i }
{
    match i {
        0..=4 => Some(i),
        6 => Some(5),
        _ => None,
    }
}

// Pair i of the descriptor, from 0, by position: slots 1 to 15 from byte 181 on, 12 bytes each, then the
// eleven facility pairs from byte 421 on, 14 bytes each.
#[tactic(auto, using(crate::proofs::TableLaws::pair_slot, crate::proofs::TableLaws::pair_behind))]
fn pair_row(i: usize) -> Pair
    requires { i < 26 }
    ensures value { result ≡ pair_row i }
    ensures byte_bound { result.byte ≤ 1000 }
    ensures row_bound { IfSome result.row (λ row. row < rows) }
{
    if i < 15 {
        return Pair {
            byte: 181 + 12 * i,
            form: Form::I6,
            row: slot_row(i),
        };
    }
    Pair {
        byte: 421 + 14 * (i - 15),
        form: Form::I8,
        row: Some(i - 9),
    }
}

// A pair under its slot's ranges: the count, where blank is 0; then, where that is not 0, the length. Behind
// the plan's last row nothing is allowed, and so neither of a slot that is not admitted.
#[tactic(auto, using(crate::proofs::PairLaws::steps))]
fn read_pair(r: &[u8], x: Pair) -> Result<Held, Refusal>
    requires { x.byte ≤ 1000 }
    ensures { result ≡ pair_of r.now x }
{
    let slot = plan::slot_at(x.row.unwrap_or(plan::ROWS) as u64);
    let count = verdicts::whole(verdicts::count(r, x.byte, slot.least, slot.most)?.units);
    if count == 0 {
        return Ok(Held { count, length: 0 });
    }
    let length = verdicts::number(r, x.byte + 6, x.form, slot.shortest, slot.longest)?;
    Ok(Held {
        count,
        length: verdicts::whole(length.units),
    })
}

// The pairs, by position, laid into the plan's rows; a pair that is not admitted has none.
fn read_pairs(r: &[u8]) -> Result<Runs, Refusal>
    ensures { result ≡ pairs_of r.now }
{
    let mut counts = [0u64; plan::ROWS];
    let mut lengths = [0u64; plan::ROWS];
    for i in 0..26 {
        let x = pair_row(i);
        let y = read_pair(r, x)?;
        if let Some(row) = x.row {
            counts[row] = y.count;
            lengths[row] = y.length;
        }
    }
    Ok(Runs { counts, lengths })
}

// The descriptor: its text, then the pairs; and the counts and lengths that it names for the plan, or its
// first fault.
#[tactic(auto, using(verdicts::proofs::TestLaws::heads), unfolding(crate::specs::Leader::described_of, crate::specs::Leader::leader_tests))]
pub fn descriptor(r: &[u8]) -> Result<Runs, Refusal>
    ensures { result ≡ described_of r.now }
{
    verdicts::first_text(r)?;
    read_pairs(r)
}

// The listed fields from one to before another: each a value or blank.
#[tactic(auto, unfolding(crate::specs::Leader::fields_tests))]
fn listed(r: &[u8], from: usize, to: usize) -> Verdict
    requires { (from ≤ to) × (to ≤ 13) }
    ensures { result ≡ first_fault (fields_tests r.now from to) }
{
    for i in from..to {
        let row = fields::listed_row(i);
        verdicts::fault(verdicts::field(r, row.first, row.form))?;
    }
    Ok(())
}

// A record behind the descriptor: a summary, a map record, or one whose bytes are free.
#[tactic(auto, unfolding(crate::specs::Leader::leader_record, verdicts::specs::Tests::first_fault))]
pub fn record(run: u64, r: &[u8]) -> Verdict
    requires { run ≡ 0 → ⊥ }
    ensures { result ≡ first_fault (leader_record run r.now) }
{
    match run {
        1 => listed(r, 0, 10),
        2 => listed(r, 10, 13),
        _ => Ok(()),
    }
}
