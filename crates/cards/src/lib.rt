// A card (document 02, No. 1): the numbers of a scene in a file beside it, as entries: the image's, each
// line's, each leader record's. Reads one, and says of any bytes what is first wrong with them as a card.
#![tactic(auto)]

ghost use Rattle.std.specs.Prelude.{◌≡◌, true, ◌+◌, ◌*◌, ◌≤◌, ◌<◌, ◌^◌, eqb, leb, length, drop, Some, None, Ok, Err};
ghost use Rattle.words.specs.Tests.{pick, both_of};
ghost use Rattle.words.specs.Answer.{refusal_at};
ghost use Rattle.words.specs.Words.{four_at};
ghost use Rattle.writing.specs.Writing.{written};
ghost use Rattle.cards.specs.Check.{body_of, fault_of, judged, sort_by, first_holds, line_holds, leader_holds};
ghost use Rattle.cards.specs.Check.{lines_of, leaders_of, check_of, Few, pairs_from, numbers_of, list_of};

use plan::Plan;
use words::Refusal;

// A card: how many lines and how many leader entries it has.
#[derive(Clone, Copy)]
pub struct Card {
    pub lines: u64,
    pub entries: u64,
}

// A card; or what is first wrong.
pub type Checked = Result<Card, Refusal>;

// The kinds of entries: the image's numbers, a line's, a leader record's.
const FIRST: u64 = 1;

const LINE: u64 = 2;

const LEADER: u64 = 3;

// How long a body of that kind is; none where there is no such kind.
#[tactic(auto, unfolding(crate::specs::Check::body_of))]
fn body(kind: u64) -> Option<usize>
    ensures { result ≡ pick (eqb (body_of kind) 0) None (Some (body_of kind)) }
{
    match kind {
        FIRST => Some(16),
        LINE => Some(12),
        LEADER => Some(9),
        _ => None,
    }
}

// What is wrong with the entry that begins these bytes, where one of that kind is due: the card ends
// here or in it (21), there is no such kind (20), it is another, or what it must hold it does not (22);
// each at the entry's start.
#[tactic(auto, unfolding(crate::specs::Check::fault_of))]
fn fault(b: &[u8], want: u64, holds: bool, at: usize) -> Result<(), Refusal>
    ensures { result ≡ judged (fault_of want holds b.now) at (Ok tt) }
{
    if b.is_empty() {
        return refused(21, at);
    }
    let kind = entry::kind(b);
    let Some(long) = body(kind) else {
        return refused(20, at);
    };
    if !entry::whole(b, long) {
        return refused(21, at);
    }
    if kind == want && holds {
        return Ok(());
    }
    refused(22, at)
}

// A refusal at an entry's start.
fn refused(number: u64, at: usize) -> Result<(), Refusal>
    ensures { result ≡ Err (refusal_at number at) }
{
    Err(words::at_place(number, at as u64))
}

// The sort of an image of w pixels in d bytes: complex where d is 8w (document 02, No. 2), else counts.
fn sort_by(w: u64, d: u64) -> u64
    requires { w < 2 ^ 32 }
    ensures { result ≡ sort_by w d }
{
    if d == plan::sort_at(plan::COMPLEX).group * w {
        return plan::COMPLEX;
    }
    plan::COUNTS
}

// Kind 1: n, L, w and d are such as an image's first record names, with s as 0.
#[tactic(auto, unfolding(crate::specs::Check::first_holds))]
fn first_holds(b: &[u8]) -> bool
    ensures { result ≡ first_holds b.now }
{
    let w = words::four(b, 9);
    let d = words::four(b, 13);
    let named = Plan {
        n: words::four(b, 1),
        l: words::four(b, 5),
        w,
        d,
        sort: sort_by(w, d),
        ..plan::zero()
    };
    allowed::good(plan::IMAGE, named)
}

// A line's number is the one due, and left fill and data count add up, an ordinary sum, to w at most.
fn line_agrees(number: u64, left: u64, count: u64, k: u64, w: u64) -> bool
    requires { (left < 2 ^ 32) × (count < 2 ^ 32) }
    ensures { result ≡ both_of (eqb number k) (leb (left + count) w) }
{
    number == k && left + count <= w
}

// Kind 2: what the entry says of line k. An entry that is there is tested once for its bytes, and not
// at each number (docs/SPEED.md).
#[tactic(auto, unfolding(crate::specs::Check::line_holds))]
fn line_holds(b: &[u8], k: u64, w: u64) -> bool
    ensures { result ≡ line_holds k w b.now }
{
    if b.len() < 13 {
        return line_agrees(
            words::four(b, 1),
            words::four(b, 5),
            words::four(b, 9),
            k,
            w,
        );
    }
    let left = words::four_there(b, 5);
    let data = words::four_there(b, 9);
    line_agrees(words::four_there(b, 1), left, data, k, w)
}

// Kind 3: the leader record's ordinal, and a start that is the sum of the lengths before it.
#[tactic(auto, unfolding(crate::specs::Check::leader_holds))]
fn leader_holds(b: &[u8], k: u64, sum: u64) -> bool
    ensures value { result ≡ leader_holds k sum b.now }
    ensures k_bound { result ≡ true → k ≤ 255 }
{
    words::byte(b, 1) == k && words::four(b, 2) == sum
}

// The lines' entries, from the card's 18th byte on: every line, or what is first wrong.
fn lines(card: &[u8], n: u64, w: u64) -> Result<(), Refusal>
    requires { 17 ≤ length card.now }
    ensures { result ≡ lines_of n 0 w 17 (drop 17 card.now) }
{
    for k in 0..n {
        let at = 17 + 13 * k as usize;
        let rest = &card[at..];
        fault(rest, LINE, line_holds(rest, k + 1, w), at)?;
    }
    Ok(())
}

// The leader's entries from a place on, to the card's end.
fn leaders(card: &[u8], n: u64, from: usize) -> Checked
    requires { from ≤ length card.now }
    ensures value { result ≡ leaders_of (length card.now) n 0 0 from (drop from card.now) }
    ensures few { Few n result }
{
    let mut entries: u64 = 0;
    let mut sum: u64 = 0;
    for at in (from..card.len()).step_by(10) {
        let rest = &card[at..];
        fault(rest, LEADER, leader_holds(rest, entries + 1, sum), at)?;
        sum += words::four(rest, 6);
        entries += 1;
    }
    Ok(Card { lines: n, entries })
}

// Judges the bytes as a card, entry by entry from the front.
#[tactic(auto, using(crate::proofs::LoopLaws::judged_err), unfolding(crate::specs::Check::check_of))]
pub fn check(card: &[u8]) -> Checked
    ensures value { result ≡ check_of card.now }
    ensures few { Few 999999 result }
{
    fault(card, FIRST, first_holds(card), 0)?;
    let n = words::four(card, 1);
    lines(card, n, words::four(card, 9))?;
    leaders(card, n, 17 + 13 * n as usize)
}

// The two numbers from a place on; where they have come they are tested once for their bytes.
fn two_at(b: &[u8], at: usize) -> (u64, u64)
    requires { at ≤ 9999999999 }
    ensures { (result.0 ≡ four_at b.now at) × (result.1 ≡ four_at b.now (at + 4)) }
{
    if at + 8 <= b.len() {
        return (words::four_there(b, at), words::four_there(b, at + 4));
    }
    (words::four(b, at), words::four(b, at + 4))
}

// Pairs of numbers, which stand a step apart from a place of the card on, to a place of the list on.
fn pairs(card: &[u8], from: usize, step: usize, count: usize, out: &mut [u64], to: usize)
    requires { (from ≤ 99999999) × (step ≤ 13) × (count ≤ 999999) × (to + 2 * count ≤ length out.old) }
    ensures { out.new ≡ written out.old to (pairs_from count from step card.now) }
{
    for i in 0..count {
        let (one, two) = two_at(card, from + step * i);
        out[to + 2 * i] = one;
        out[to + 2 * i + 1] = two;
    }
}

// The numbers of a card to the list's start: n, L, w, d, then left and data of each line, then start
// and length of each leader entry. A list that is too short is 37; on a refusal every number stays.
#[tactic(auto, unfolding(crate::specs::Check::numbers_of, crate::specs::Check::list_of))]
pub fn numbers(card: &[u8], out: &mut [u64]) -> Checked
    ensures value { result ≡ numbers_of card.now (length out.old) }
    ensures out_after { out.new ≡ list_of card.now out.old }
{
    let read = check(card)?;
    if (out.len() as u64) < 4 + 2 * read.lines + 2 * read.entries {
        return Err(words::bare(37));
    }
    let lines = read.lines as usize;
    pairs(card, 1, 8, 2, out, 0);
    pairs(card, 22, 13, lines, out, 4);
    pairs(
        card,
        19 + 13 * lines,
        10,
        read.entries as usize,
        out,
        4 + 2 * lines,
    );
    Ok(read)
}
