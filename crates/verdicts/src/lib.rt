// A rule as a test with the fault that it names (document 01, "The record and the walk", step 7): a fixed
// text, a number field by its form and range, a count. The verdict on a record is its first fault. A number
// is read once: what is answered is the number, or the refusal. Places are in the record, from 0.
#![tactic(auto)]

ghost use Rattle.std.specs.Prelude.{◌≡◌, ◌+◌, ◌<◌, [], ◌∷◌, length};
ghost use Rattle.words.specs.Words.{place_of};
ghost use Rattle.decimal.specs.declared.Form.TheVariants.{I6};
ghost use Rattle.verdicts.specs.Tests.{first_fault, text_at, text_test, fault_of, in_range, needed_of, counted_of, whole_in, whole_of};
ghost use Rattle.verdicts.specs.Numbers.{first_text, at, last_of};

use decimal::{Form, Number};
use fields::Field;
use words::Refusal;

// What was found in a record: nothing wrong, or the first fault's number and its place in the record. It
// names no record: ordinal 0.
pub type Verdict = Result<(), Refusal>;

// The bytes from document 01's byte on are this text.
#[tactic(auto, using(crate::proofs::TextLaws::steps), unfolding(words::specs::Words::place_of))]
pub fn text(r: &[u8], byte: usize, t: &[u8]) -> bool
    requires { byte + length t.now < 1000 }
    ensures { result ≡ text_at r.now (place_of byte) t.now }
{
    let at = words::place(byte);
    for i in 0..t.len() {
        if words::byte(r, at + i) != t[i] as u64 {
            return false;
        }
    }
    true
}

// A fixed text: 8 at its first byte.
#[tactic(auto, unfolding(crate::specs::Tests::first_fault))]
pub fn fixed(r: &[u8], byte: usize, t: &[u8]) -> Verdict
    requires { byte + length t.now < 1000 }
    ensures { result ≡ first_fault (text_test r.now byte t.now ∷ []) }
{
    if text(r, byte, t) {
        return Ok(());
    }
    Err(words::at_place(8, words::place(byte) as u64))
}

// Every file's first record has `Ab` at 13-14.
pub fn first_text(r: &[u8]) -> Verdict
    ensures { result ≡ first_fault (first_text r.now ∷ []) }
{
    fixed(r, 13, b"A ")
}

// A signed number lies in a range.
fn whole_in(lo: u64, v: i64, hi: u64) -> bool
    ensures { result ≡ whole_in lo v hi }
{
    v >= 0 && words::within(lo, v as u64, hi)
}

// The number that a value says; 0 where it is negative, which no range allows.
pub fn whole(v: i64) -> u64
    ensures { result ≡ whole_of v }
{
    u64::try_from(v).unwrap_or(0)
}

// The verdict on a field: its refusal is the fault. A listed field is a value or blank, so this is all
// that is asked of it.
pub fn fault(f: Field) -> Verdict
    ensures { result ≡ fault_of f }
{
    match f {
        Field::Refused(x) => Err(x),
        _ => Ok(()),
    }
}

// A number under its range: 7 at the field's first byte.
fn in_range(x: Number, place: u64, lo: u64, hi: u64) -> Result<Number, Refusal>
    ensures { result ≡ in_range x.units x.exponent place lo hi }
{
    if whole_in(lo, x.units, hi) {
        return Ok(x);
    }
    Err(words::at_place(7, place))
}

// The field at document 01's byte.
pub fn field(r: &[u8], byte: usize, form: Form) -> Field
    ensures { result ≡ at r.now byte form }
{
    fields::field_at(r, words::place(byte), form)
}

// The field of that form at document 01's byte, which must be a number in a range: the number, or the
// refusal. Its form (6, of a blank field at its last byte), then its range (7, at its first). Where there
// is no upper end, `most` is the largest number. The value is taken by `let .. else`, or the refusal handed
// up, here and in `count`: docs/RULES.md, "Forms for each place".
#[tactic(auto, using(fields::proofs::Laws::blank_there))]
pub fn number(r: &[u8], byte: usize, form: Form, least: u64, most: u64) -> Result<Number, Refusal>
    ensures { result ≡ needed_of (at r.now byte form) (place_of byte) (last_of byte form) least most }
{
    let first = words::place(byte);
    let said = field(r, byte, form);
    let Field::Value(units, exponent) = said else {
        fault(said)?;
        return Err(words::at_place(6, (first + (decimal::width(form) - 1)) as u64));
    };
    in_range(Number { units, exponent }, first as u64, least, most)
}

// The count of six columns at document 01's byte: the number, or the refusal. It may be blank, and is 0
// then.
pub fn count(r: &[u8], byte: usize, least: u64, most: u64) -> Result<Number, Refusal>
    ensures { result ≡ counted_of (at r.now byte I6) (place_of byte) least most }
{
    let first = words::place(byte) as u64;
    let said = field(r, byte, Form::I6);
    let Field::Value(units, exponent) = said else {
        fault(said)?;
        let nought = Number {
            units: 0,
            exponent: 0,
        };
        return in_range(nought, first, least, most);
    };
    in_range(Number { units, exponent }, first, least, most)
}
