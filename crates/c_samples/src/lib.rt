// The C boundary (include/seobangyu.h), samples of an image's line: one sample, its power, a row of complex ones.
// A call assumes nothing of what it is handed: an array that is too short is answered with 0, and then nothing
// is written.
#![tactic(auto)]

ghost use Rattle.std.specs.Prelude.{◌≡◌, length};
ghost use Rattle.samples.specs.Asked.{pattern_of, power_of};
ghost use Rattle.samples.specs.Said.{patterned_as, powered_as};
ghost use Rattle.copies.specs.Said.{copied_as};
ghost use Rattle.complex_rows.specs.Parts.{parts_copied};
ghost use Rattle.c_answer.specs.Reply.{reply_of};
ghost use Rattle.c_answer.specs.Room.{fits, answered, answer_of};
ghost use Rattle.c_samples.specs.Calls.{parts_behind};

use c_answer::Reply;
use samples::{Patterned, Powered, Sample};

// What stands at a sample's place: a count, or two patterns, bits kept whatever they are.
pub fn sample_reply(x: Patterned) -> Reply
    ensures { result ≡ reply_of (patterned_as x) 0 }
{
    match x {
        Ok(Sample::Count(n)) => c_answer::brief(12, n as u64, 0),
        Ok(Sample::Complex(re, im)) => Reply {
            tag: 13,
            a: re as u64,
            b: im as u64,
            c: 0,
            count: 0,
        },
        Err(x) => c_image::unshown_reply(x),
    }
}

// A power's pattern.
pub fn power_reply(x: Powered) -> Reply
    ensures { result ≡ reply_of (powered_as x) 0 }
{
    match x {
        Ok(n) => c_answer::brief(14, n as u64, 0),
        Err(x) => c_image::unshown_reply(x),
    }
}

// One sample of a line, from 0: a count, or two patterns.
pub fn sbg_sample(bytes: &[u8], line: u64, index: u64, answer: &mut [u64]) -> u64
    ensures value { result ≡ answered (fits 5 answer.old) }
    ensures answer_after { answer.new ≡ answer_of (patterned_as (pattern_of bytes.now line index)) answer.old }
{
    c_answer::answer_with(
        answer,
        &mut || sample_reply(samples::pattern_at(bytes, line, index)),
    )
}

// Its power, as a pattern.
pub fn sbg_power(bytes: &[u8], line: u64, index: u64, answer: &mut [u64]) -> u64
    ensures value { result ≡ answered (fits 5 answer.old) }
    ensures answer_after { answer.new ≡ answer_of (powered_as (power_of bytes.now line index)) answer.old }
{
    c_answer::answer_with(
        answer,
        &mut || power_reply(samples::power_at(bytes, line, index)),
    )
}

// The complex row copy: two patterns a sample. A row that is too short is refusal 15.
pub fn sbg_complex_row(bytes: &[u8], line: u64, row: &mut [u32], answer: &mut [u64]) -> u64
    ensures value { result ≡ answered (fits 5 answer.old) }
    ensures row_after { row.new ≡ parts_behind line bytes.now row.old answer.old }
    ensures answer_after { answer.new ≡ answer_of (copied_as (parts_copied bytes.now line (length row.old))) answer.old }
{
    c_answer::answer_with(
        answer,
        &mut || c_image::copy_reply(complex_rows::complex_row(bytes, line, row)),
    )
}
