// The set check (document 01, "Lines, rows, sets"): the record counts of a product's files, in pointer
// order, against the product's closed directory.
#![tactic(auto)]

ghost use Rattle.std.specs.Prelude.{◌≡◌, ◌≤◌, length};
ghost use Rattle.sets.specs.Set.{differs, count_of, compare_from, set_of};

use turns::Stop;
use walk::State;
use words::Refusal;

// The set agrees with its directory, or why not.
pub type Agreement = Result<(), Refusal>;

// 12, at that place in the directory.
fn differing(place: u64) -> Agreement
    ensures { result ≡ differs place }
{
    Err(words::at_place(12, place))
}

// The first pointer whose count differs.
#[tactic(auto, unfolding(crate::specs::Set::compare_from, crate::specs::Set::count_of))]
fn compare(directory: &[u8], counts: &[u64]) -> Agreement
    requires { length counts.now ≤ 6 }
    ensures { result ≡ compare_from 1 directory.now counts.now }
{
    for (i, count) in counts.iter().enumerate() {
        let byte = 360 * (i + 1) + 101;
        if *count != volume::count_at(directory, byte) {
            return differing(words::place(byte) as u64);
        }
    }
    Ok(())
}

// The directory's own refusal first; then a list of the wrong length, 12 at the pointer count; then
// the first pointer whose count differs, 12 at that count.
pub fn check(directory: &[u8], counts: &[u64]) -> Agreement
    ensures { result ≡ set_of directory.now counts.now }
{
    let fresh = State::none().begin(plan::VOLUME)?;
    let walked = fresh.walk(directory, true, 9);
    if let Stop::Refused(r) = walked.stop {
        return Err(r);
    }
    if counts.len() as u64 != walked.state.plan.pointers {
        return differing(words::place(161) as u64);
    }
    compare(directory, counts)
}
