// Number fields of a record: what stands at a place, and the thirteen listed fields by their number
// (document 01, "Listed fields"). A record's header is not judged here, and places count from the
// first of the bytes handed over.
#![tactic(auto)]

ghost use Rattle.std.specs.Prelude.{◌≡◌, ◌<◌, ◌≤◌, ◌+◌, ltb, length};
ghost use Rattle.decimal.specs.Forms.{width_of};
ghost use Rattle.decimal.specs.Scan.{Fit};
ghost use Rattle.fields.specs.Shaped.{shaped_at};
ghost use Rattle.fields.specs.Field.{field_at, rough_at, bad_place, badly?, from_written, refuse};
ghost use Rattle.fields.specs.Listed.{row, listed, listed_field};

use decimal::{Form, Shape, Written};
use words::Refusal;

// What a number field says: one signed whole number of units in the last written place with its
// exponent (0 for I and F), blank, or a refusal.
// kept: docs/RULES.md, "Forms for each place", names `Field::Value`, which callers take by `let .. else`.
#[derive(Clone, Copy)]
pub enum Field {
    Value(i64, i64),
    Blank,
    Refused(Refusal),
}

// A listed field: its first byte as document 01 counts, from 1, and its form.
#[derive(Clone, Copy)]
pub struct Listed {
    pub first: usize,
    pub form: Form,
}

// A field's refusal names no record: ordinal 0.
fn refused(number: u64, place: u64) -> Field
    ensures { result ≡ refuse number place }
{
    Field::Refused(words::at_place(number, place))
}

// Badly written is refusal 6, at the field's first byte so far.
fn from_written(w: Written, at: usize) -> Field
    ensures { result ≡ from_written at w }
{
    match w {
        Ok(Some(x)) => Field::Value(x.units, x.exponent),
        Ok(None) => Field::Blank,
        Err(_) => refused(6, at as u64),
    }
}

// The bytes end before a field of n bytes at a place does.
fn short(bytes: &[u8], at: usize, n: usize) -> bool
    ensures { result ≡ ltb (length bytes.now) (at + n) }
{
    let len = bytes.len();
    len < n || len - n < at
}

// A number of this shape in n bytes at a place. Bytes that end before the field does are refusal 2.
// It is made anew at each call, so that the compiler knows each form's width and places (docs/SPEED.md).
#[inline(always)]
#[tactic(auto, unfolding(crate::specs::Shaped::shaped_at))]
fn shaped_at(bytes: &[u8], at: usize, n: usize, shape: Shape) -> Field
    requires { Fit shape n }
    ensures { result ≡ shaped_at bytes.now at n shape }
{
    if short(bytes, at, n) {
        return refused(2, 0);
    }
    let end = at + n;
    from_written(decimal::shaped(&bytes[at..end], shape), at)
}

// What the field of this form at a place says, but for the place of a 6. Each form's width and places stand
// here as numbers, so that the compiler makes a reader of each and no table is looked into (docs/SPEED.md).
fn rough_at(bytes: &[u8], at: usize, form: Form) -> Field
    ensures { result ≡ rough_at bytes.now at form }
{
    match form {
        Form::I4 => shaped_at(bytes, at, 4, Shape::Whole),
        Form::I6 => shaped_at(bytes, at, 6, Shape::Whole),
        Form::I8 => shaped_at(bytes, at, 8, Shape::Whole),
        Form::I16 => shaped_at(bytes, at, 16, Shape::Whole),
        Form::F8d3 => shaped_at(bytes, at, 8, Shape::Fixed(3)),
        Form::F16d7 => shaped_at(bytes, at, 16, Shape::Fixed(7)),
        Form::E20d13 => shaped_at(bytes, at, 20, Shape::Expo(13)),
    }
}

// The place of the first bad byte of the field of this form at a place.
fn bad_at(bytes: &[u8], at: usize, form: Form) -> u64
    requires { at + width_of form ≤ length bytes.now }
    ensures { result ≡ bad_place bytes.now at form }
{
    let end = at + decimal::width(form);
    (at + bad_byte::place(&bytes[at..end], decimal::shape_of(form))) as u64
}

// The field is badly written.
fn badly(f: Field) -> bool
    ensures { result ≡ badly? f }
{
    matches!(f, Field::Refused(x) if x.number == 6)
}

// What the field of this form at a place says. The first bad byte (document 02, No. 5) is looked for behind
// all else and only where there is one, so that nothing of it stands in the way of a good field.
pub fn field_at(bytes: &[u8], at: usize, form: Form) -> Field
    ensures { result ≡ field_at bytes.now at form }
{
    let f = rough_at(bytes, at, form);
    if badly(f) {
        return refused(6, bad_at(bytes, at, form));
    }
    f
}

// A row of the table.
fn row(first: usize, form: Form) -> Listed
    ensures { result ≡ row first form }
{
    Listed { first, form }
}

// Row i of the table, from 0: fields 1 to 10 stand in the summary record, 11 to 13 in the map record.
// It is no array, since one of structs is built anew at each look into it (docs/SPEED.md).
#[tactic(auto, unfolding(crate::specs::Listed::listed))]
pub fn listed_row(i: usize) -> Listed
    requires { i < 13 }
    ensures { result ≡ listed i }
{
    match i {
        0 => row(477, Form::F8d3),
        1 => row(711, Form::F16d7),
        2 => row(743, Form::F16d7),
        3 => row(935, Form::F16d7),
        4 => row(1887, Form::E20d13),
        5 => row(1907, Form::E20d13),
        6 => row(1927, Form::E20d13),
        7 => row(1947, Form::E20d13),
        8 => row(1967, Form::E20d13),
        9 => row(1987, Form::E20d13),
        10 => row(61, Form::I16),
        11 => row(77, Form::I16),
        _ => row(93, Form::F16d7),
    }
}

// The field reader: a record's bytes and the number of a listed field. No such number is 14; then 2
// where the bytes end before the field does; then 6.
pub fn listed_field(bytes: &[u8], number: u64) -> Field
    ensures { result ≡ listed_field bytes.now number }
{
    if words::within(1, number, 13) {
        let row = listed_row((number - 1) as usize);
        let form = row.form;
        return field_at(bytes, words::place(row.first), form);
    }
    refused(14, 0)
}
