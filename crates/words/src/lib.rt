// The bottom layer: numbers of two and four bytes, most significant byte first (002), the helpers
// that make one answer of several tests, and the refusal that every layer hands up.
//
// Every function is total. A byte that is not there counts as 0 in these sums; no layer shows such a
// sum to anybody, since each tests that its bytes have come before it reads them.
#![tactic(auto)]

ghost use Rattle.std.specs.Prelude.{◌≡◌, ◌+◌, ◌<◌, ◌≤◌, ◌^◌, eqb, length};
ghost use Rattle.words.specs.Words.{byte_at, two_at, four_at, place_of};
ghost use Rattle.words.specs.Tests.{both_of, within_of};
ghost use Rattle.words.specs.Answer.{refusal_at, bare_refusal};

// Why something was refused: document 01's number, the record's ordinal (0 where none is named) and
// the place, from 0.
#[derive(Clone, Copy)]
pub struct Refusal {
    pub number: u64,
    pub record: u64,
    pub place: u64,
}

// A refusal that names no record: ordinal 0.
pub fn at_place(number: u64, place: u64) -> Refusal
    ensures { result ≡ refusal_at number place }
{
    Refusal {
        number,
        record: 0,
        place,
    }
}

// A refusal that names neither a record nor a place in it.
pub fn bare(number: u64) -> Refusal
    ensures { result ≡ bare_refusal number }
{
    at_place(number, 0)
}

// The byte at a place, or 0 past the end.
pub fn byte(b: &[u8], at: usize) -> u64
    ensures value { result ≡ byte_at b.now at }
    ensures upper_bound { result < 2 ^ 8 }
{
    if at < b.len() {
        return b[at] as u64;
    }
    0
}

// The two bytes from a place on as one number, high byte first: 02 01 is 513 (P11).
#[tactic(auto, unfolding(crate::specs::Words::two_at))]
pub fn two(b: &[u8], at: usize) -> u64
    ensures value { result ≡ two_at b.now at }
    ensures upper_bound { result < 2 ^ 16 }
{
    if at < b.len() {
        let high = byte(b, at);
        let low = byte(b, at + 1);
        return high * 256 + low;
    }
    0
}

// Four bytes that have all come: who reads many of them tests once, and not at each.
#[tactic(auto, unfolding(crate::specs::Words::two_at, crate::specs::Words::four_at))]
pub fn four_there(b: &[u8], at: usize) -> u64
    requires { at + 4 ≤ length b.now }
    ensures value { result ≡ four_at b.now at }
    ensures upper_bound { result < 2 ^ 32 }
{
    u64::from(u32::from_be_bytes([b[at], b[at + 1], b[at + 2], b[at + 3]]))
}

// The four bytes from a place on, some of which have not come.
#[tactic(auto, unfolding(crate::specs::Words::two_at, crate::specs::Words::four_at))]
fn four_short(b: &[u8], at: usize) -> u64
    ensures value { result ≡ four_at b.now at }
    ensures upper_bound { result < 2 ^ 32 }
{
    if at < b.len() {
        let high = two(b, at);
        let low = two(b, at + 2);
        return high * 65536 + low;
    }
    0
}

// The four bytes from a place on as one number, high byte first.
pub fn four(b: &[u8], at: usize) -> u64
    ensures value { result ≡ four_at b.now at }
    ensures upper_bound { result < 2 ^ 32 }
{
    let len = b.len();
    if 4 <= len && at <= len - 4 {
        return four_there(b, at);
    }
    four_short(b, at)
}

// Document 01 counts bytes from 1, places from 0: this is the one crossing between the two.
// Byte 0 does not exist; it is taken for byte 1.
#[tactic(auto, unfolding(crate::specs::Words::place_of))]
pub fn place(byte: usize) -> usize
    ensures { result ≡ place_of byte }
{
    byte.saturating_sub(1)
}

// Both tests hold.
pub fn both(a: bool, b: bool) -> bool
    ensures { result ≡ both_of a b }
{
    a && b
}

// Two numbers are the same.
pub fn is(x: u64, y: u64) -> bool
    ensures { result ≡ eqb x y }
{
    x == y
}

// A number lies in a range, both ends included.
pub fn within(lo: u64, x: u64, hi: u64) -> bool
    ensures { result ≡ within_of lo x hi }
{
    both(lo <= x, x <= hi)
}
