// The image's records (document 01, "First records and what they promise"): its descriptor with the
// numbers that it names, each read once, and the lines. Places are in the record, from 0.
#![tactic(auto)]

ghost use Rattle.std.specs.Prelude.{◌≡◌, ◌<◌, ◌≤◌, ◌^◌, length};
ghost use Rattle.verdicts.specs.Tests.{first_fault, all_hold};
ghost use Rattle.image.specs.Image.{sort_in, number_field, image_row, numbers_of, image_texts, agree_tests, described_of, fills_of, line_tests};

use decimal::{Form, Number};
use verdicts::Verdict;
use words::Refusal;

// The plan's numbers that a descriptor names.
#[derive(Clone, Copy)]
pub struct Described {
    pub n: u64,
    pub l: u64,
    pub w: u64,
    pub d: u64,
    pub s: u64,
    pub sort: u64,
}

// A line's left fill, data and right fill counts.
#[derive(Clone, Copy)]
pub struct Fills {
    pub left: u64,
    pub data: u64,
    pub right: u64,
}

// The sort, by the text at 429: complex, or else counts, whose text it must then be.
fn sort_of(r: &[u8]) -> u64
    ensures { result ≡ sort_in r.now }
{
    if verdicts::text(r, 429, &plan::sort_at(plan::COMPLEX).text) {
        return plan::COMPLEX;
    }
    plan::COUNTS
}

// The first record's text, and the sort's at 429.
#[tactic(auto, unfolding(verdicts::specs::Tests::first_fault))]
fn texts(r: &[u8], sort: u64) -> Verdict
    requires { sort ≡ sort_in r.now }
    ensures { result ≡ first_fault (image_texts r.now) }
{
    verdicts::first_text(r)?;
    verdicts::fixed(r, 429, &plan::sort_at(sort).text)
}

// Number field i of the descriptor, from 0, by position: its number, or the refusal.
#[tactic(auto, unfolding(crate::specs::Image::image_row))]
fn number_at(r: &[u8], sort: u64, i: usize) -> Result<Number, Refusal>
    requires { i < 8 }
    ensures { result ≡ number_field r.now (image_row sort i) }
{
    let group = plan::sort_at(sort).group;
    match i {
        0 => verdicts::number(r, 181, Form::I6, 1, 999999),
        1 => verdicts::number(r, 187, Form::I6, 1, 999999),
        2 => verdicts::number(r, 225, Form::I4, group, group),
        3 => verdicts::number(r, 233, Form::I4, 1, 1),
        4 => verdicts::number(r, 237, Form::I8, 1, 99999999),
        5 => verdicts::number(r, 249, Form::I8, 1, 99999999),
        6 => verdicts::number(r, 281, Form::I8, 1, 99999999),
        _ => verdicts::number(r, 289, Form::I4, 0, 9999),
    }
}

// The number fields, each read once: the first that is refused is the fault.
#[tactic(auto, using(crate::proofs::ImageLaws::row_fault), unfolding(crate::specs::Image::numbers_of, verdicts::specs::Numbers::numbers_tests))]
fn read_numbers(r: &[u8], sort: u64) -> Result<[u64; 8], Refusal>
    ensures { result ≡ numbers_of sort r.now }
{
    let mut values = [0u64; 8];
    for i in 0..8 {
        values[i] = verdicts::whole(number_at(r, sort, i)?.units);
    }
    Ok(values)
}

// Both line counts equal; d is a group for each pixel; what goes before, the data and the suffix
// fit L. The numbers have passed their ranges, so no sum wraps.
#[tactic(auto, using(crate::proofs::ImageLaws::modest), unfolding(crate::specs::Image::agree_tests, verdicts::specs::Tests::first_fault))]
fn agree(sort: u64, n: u64, l: u64, lines: u64, w: u64, d: u64, s: u64) -> Verdict
    requires { (w ≤ 99999999) × (d ≤ 99999999) × (s ≤ 9999) }
    ensures { result ≡ first_fault (agree_tests sort n l lines w d s) }
{
    let row = plan::sort_at(sort);
    if n != lines || d != row.group * w || l < row.ahead + d + s {
        return Err(words::at_place(8, 0));
    }
    Ok(())
}

// The descriptor: fixed texts, number fields and agreements, in this order, and the numbers that it
// names for the plan; or its first fault.
#[tactic(auto, using(crate::proofs::ImageLaws::steps))]
pub fn descriptor(r: &[u8]) -> Result<Described, Refusal>
    ensures { result ≡ described_of r.now }
{
    let sort = sort_of(r);
    texts(r, sort)?;
    let [n, l, _, _, lines, w, d, s] = read_numbers(r, sort)?;
    agree(sort, n, l, lines, w, d, s)?;
    Ok(Described {
        n,
        l,
        w,
        d,
        s,
        sort,
    })
}

// A line's left fill, data and right fill counts, as its record says them.
pub fn fills_of(r: &[u8]) -> Fills
    ensures value { result ≡ fills_of r.now }
    ensures left_bound { (result.left < 2 ^ 32) × (result.«data» < 2 ^ 32) × (result.right < 2 ^ 32) }
{
    let left = words::four(r, words::place(21));
    let data = words::four(r, words::place(25));
    let right = words::four(r, words::place(29));
    Fills { left, data, right }
}

// Line k of an image of w pixels: line number, index 1, and fills whose ordinary sum is w. The sum
// of three four-byte numbers fits 64 bits, so it does not wrap.
#[tactic(auto, unfolding(crate::specs::Image::line_tests, verdicts::specs::Tests::first_fault))]
pub fn line(w: u64, k: u64, r: &[u8]) -> Verdict
    ensures { result ≡ first_fault (line_tests w k r.now) }
{
    let number = words::four(r, words::place(13));
    if number != k {
        return Err(words::at_place(10, words::place(13) as u64));
    }
    let index = words::four(r, words::place(17));
    if index != 1 {
        return Err(words::at_place(10, words::place(17) as u64));
    }
    let f = fills_of(r);
    if f.left + f.data + f.right != w {
        return Err(words::at_place(10, words::place(21) as u64));
    }
    Ok(())
}

// A line's tests on bytes that have all come: whether `line` would find nothing wrong.
#[tactic(auto, unfolding(crate::specs::Image::line_tests, verdicts::specs::Tests::all_hold, words::specs::Words::place_of))]
pub fn line_there(w: u64, k: u64, r: &[u8]) -> bool
    requires { 32 ≤ length r.now }
    ensures { result ≡ all_hold (line_tests w k r.now) }
{
    let number = words::is(words::four_there(r, words::place(13)), k);
    let index = words::is(words::four_there(r, words::place(17)), 1);
    let left = words::four_there(r, words::place(21));
    let data = words::four_there(r, words::place(25));
    let right = words::four_there(r, words::place(29));
    let fills = words::is(left + data + right, w);
    words::both(number, words::both(index, fills))
}
