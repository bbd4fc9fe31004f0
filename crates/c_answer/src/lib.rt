// An answer of the reader as C gets it (include/seobangyu.h): five numbers. What every call shares; which
// of a topic's answers is which reply stands beside the topic's calls (`c_walk`, `c_image`, ...).
#![tactic(auto)]

ghost use Rattle.std.specs.Prelude.{◌≡◌, ◌++◌, ◌≤◌, true, false, length, drop};
ghost use Rattle.words.specs.Answer.{refused_as};
ghost use Rattle.c_answer.specs.Reply.{five_of, reply_of};
ghost use Rattle.c_answer.specs.Room.{fits, answered};

use words::Refusal;

// How many numbers an answer has.
pub const NUMBERS: usize = 5;

// An answer as C gets it: which one it is, its numbers, and how many records a walk passed.
// kept: the tag is a number since include/seobangyu.h names the tags by number.
#[derive(Clone, Copy)]
pub struct Reply {
    pub tag: u64,
    pub a: u64,
    pub b: u64,
    pub c: u64,
    pub count: u64,
}

// An answer with at most one number: the bytes still missing, or the samples copied.
pub fn brief(tag: u64, a: u64, count: u64) -> Reply
    ensures { result ≡ record { tag = tag; a = a; b = 0; c = 0; count = count } }
{
    Reply {
        tag,
        a,
        b: 0,
        c: 0,
        count,
    }
}

// A refusal: number, record and place.
pub fn refusal(r: Refusal, count: u64) -> Reply
    ensures { result ≡ reply_of (refused_as r) count }
{
    Reply {
        tag: 0,
        a: r.number,
        b: r.record,
        c: r.place,
        count,
    }
}

// An answer's numbers to the start of the answer array; later numbers stay.
pub fn say(t: Reply, answer: &mut [u64])
    requires { 5 ≤ length answer.old }
    ensures { answer.new ≡ five_of t ++ drop 5 answer.old }
{
    answer[0] = t.tag;
    answer[1] = t.a;
    answer[2] = t.b;
    answer[3] = t.c;
    answer[4] = t.count;
}

// What each call with one answer does: where the answer array has room, the reply that is asked for goes
// to its start, and 1; else nothing is asked or written, and 0.
pub fn answer_with<F: FnMut() -> Reply>(answer: &mut [u64], reply: &mut F) -> u64
    requires { F.pre reply.old }
    ensures value { result ≡ answered (fits 5 answer.old) }
    ensures short { fits 5 answer.old ≡ false → (answer.new ≡ answer.old) × (reply.new ≡ reply.old) }
    ensures room { fits 5 answer.old ≡ true → (t : _) × F.step reply.old t reply.new × (answer.new ≡ five_of t ++ drop 5 answer.old) }
{
    if answer.len() < NUMBERS {
        return 0;
    }
    say(reply(), answer);
    1
}
