// A record's header (document 01, "The record and the walk", step 5): its first twelve bytes are the
// sequence number, four codes and the length.
#![tactic(auto)]

ghost use Rattle.std.specs.Prelude.{◌≡◌, ◌≤◌, length};
ghost use Rattle.verdicts.specs.Tests.{all_hold};
ghost use Rattle.headers.specs.Header.{codes_are, header_tests, header_of};

use plan::Codes;
use verdicts::Verdict;

// A header's code bytes are those; the fourth may be any where it is free.
#[tactic(auto, unfolding(crate::specs::Header::codes_are))]
fn codes_are(b: &[u8], c: Codes) -> bool
    ensures { result ≡ codes_are b.now c }
{
    let front = words::both(
        words::is(words::byte(b, 4), c.one),
        words::is(words::byte(b, 5), c.two),
    );
    let third = words::is(words::byte(b, 6), c.three);
    let fourth = words::is(words::byte(b, 7), c.four);
    if c.free {
        return words::both(front, words::both(third, true));
    }
    words::both(front, words::both(third, fourth))
}

// A record's first twelve bytes: sequence number (3), codes (4), length (5).
#[tactic(auto, unfolding(crate::specs::Header::header_of, crate::specs::Header::header_tests, verdicts::specs::Tests::first_fault))]
pub fn header(ordinal: u64, c: Codes, long: u64, b: &[u8]) -> Verdict
    ensures { result ≡ header_of ordinal c long b.now }
{
    if words::four(b, 0) != ordinal {
        return Err(words::at_place(3, 0));
    }
    if !codes_are(b, c) {
        return Err(words::at_place(4, 4));
    }
    if words::four(b, 8) != long {
        return Err(words::at_place(5, 8));
    }
    Ok(())
}

// A header's tests on bytes that have all come: whether `header` would find nothing wrong.
#[tactic(auto, unfolding(crate::specs::Header::header_tests, verdicts::specs::Tests::all_hold))]
pub fn header_there(ordinal: u64, c: Codes, long: u64, b: &[u8]) -> bool
    requires { 12 ≤ length b.now }
    ensures { result ≡ all_hold (header_tests ordinal c long b.now) }
{
    let number = words::is(words::four_there(b, 0), ordinal);
    let length = words::is(words::four_there(b, 8), long);
    words::both(number, words::both(codes_are(b, c), length))
}
