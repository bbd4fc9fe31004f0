// The C boundary (include/seobangyu.h), the set check. A call assumes nothing of what it is handed: an array
// that is too short is answered with 0, and then nothing is written.
#![tactic(auto)]

ghost use Rattle.std.specs.Prelude.{◌≡◌};
ghost use Rattle.sets.specs.Set.{set_of};
ghost use Rattle.sets.specs.Said.{agreement_as};
ghost use Rattle.c_answer.specs.Reply.{reply_of};
ghost use Rattle.c_answer.specs.Room.{fits, answered, answer_of};

use c_answer::Reply;
use sets::Agreement;

// What the set check answers.
fn set_reply(x: Agreement) -> Reply
    ensures { result ≡ reply_of (agreement_as x) 0 }
{
    match x {
        Ok(()) => c_answer::brief(9, 0, 0),
        Err(r) => c_answer::refusal(r, 0),
    }
}

// The set check over a closed directory and a list of counts in pointer order.
pub fn sbg_set(bytes: &[u8], counts: &[u64], answer: &mut [u64]) -> u64
    ensures value { result ≡ answered (fits 5 answer.old) }
    ensures answer_after { answer.new ≡ answer_of (agreement_as (set_of bytes.now counts.now)) answer.old }
{
    c_answer::answer_with(answer, &mut || set_reply(sets::check(bytes, counts)))
}
