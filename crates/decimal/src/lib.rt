// Written numbers (document 01, "Written numbers"): what the bytes of a number field say.
//
// The grammar in specs/Grammar.antt is all that a reader must believe. The functions here choose the
// parts that a field of the form has, which `digits` reads, and put the number together.
#![tactic(auto)]

ghost use Rattle.std.specs.Prelude.{◌≡◌, ◌<◌, ◌^◌, length};
ghost use Rattle.digits.specs.Segments.{Small, Skipped};
ghost use Rattle.decimal.specs.Forms.{width_of, shape_of};
ghost use Rattle.decimal.specs.Grammar.{Means, signed_of};
ghost use Rattle.decimal.specs.Scan.{Fit, plain_of, scaled_of, number_in, decimal_of, written};

use digits::Signed;

// The seven forms in use, as the sources write them: I4, I6, I8, I16, F8.3, F16.7, E20.13.
#[derive(Clone, Copy)]
pub enum Form {
    I4,
    I6,
    I8,
    I16,
    F8d3,
    F16d7,
    E20d13,
}

// A written number: one signed whole number of units in the last written place, with the exponent (0
// for I and F).
#[derive(Clone, Copy)]
pub struct Number {
    pub units: i64,
    pub exponent: i64,
}

// The bytes are no number of the form, and not all blank.
#[derive(Clone, Copy)]
pub struct BadlyWritten;

// What a field's bytes say: a number, or None where all are blank; or that they are badly written.
pub type Written = Result<Option<Number>, BadlyWritten>;

// A form without its width: Iw, Fw.d with its places, E with its places.
#[derive(Clone, Copy)]
pub enum Shape {
    Whole,
    Fixed(usize),
    Expo(usize),
}

// How many bytes a field of this form has.
pub fn width(form: Form) -> usize
    ensures { result ≡ width_of form }
{
    match form {
        Form::I4 => 4,
        Form::I6 => 6,
        Form::I8 => 8,
        Form::I16 => 16,
        Form::F8d3 => 8,
        Form::F16d7 => 16,
        Form::E20d13 => 20,
    }
}

// The shape of a field of this form, with its places.
pub fn shape_of(form: Form) -> Shape
    ensures { result ≡ shape_of form }
{
    match form {
        Form::I4 => Shape::Whole,
        Form::I6 => Shape::Whole,
        Form::I8 => Shape::Whole,
        Form::I16 => Shape::Whole,
        Form::F8d3 => Shape::Fixed(3),
        Form::F16d7 => Shape::Fixed(7),
        Form::E20d13 => Shape::Expo(13),
    }
}

// The minus is applied to the digits, so minus zero is 0 and a minus before `0.5` is not lost.
fn signed(minus: bool, n: u64) -> i64
    requires { n < 2 ^ 63 }
    ensures { result ≡ signed_of minus n }
{
    let m = n as i64;
    if minus { -m } else { m }
}

fn plain(x: Option<Signed>) -> Written
    requires { Small (10 ^ 18) x }
    ensures { result ≡ plain_of x }
{
    let x = x.ok_or(BadlyWritten)?;
    Ok(Some(Number {
        units: signed(x.minus, x.digits),
        exponent: 0,
    }))
}

fn scaled(x: Option<Signed>, y: Option<Signed>) -> Written
    requires { (Small (10 ^ 18) x) × (Small (10 ^ 18) y) }
    ensures { result ≡ scaled_of x y }
{
    let x = x.ok_or(BadlyWritten)?;
    let y = y.ok_or(BadlyWritten)?;
    Ok(Some(Number {
        units: signed(x.minus, x.digits),
        exponent: signed(y.minus, y.digits),
    }))
}

// What the bytes of a field of this shape say whose first byte that is no blank stands at k.
#[inline(always)]
#[tactic(auto, unfolding(crate::specs::Scan::number_in))]
fn number_in(f: &[u8], k: usize, shape: Shape) -> Written
    requires skipped { Skipped f.now 0 (length f.now) k }
    requires k_in_bounds { k < length f.now }
    requires fit { Fit shape (length f.now) }
    ensures { result ≡ number_in shape f.now }
{
    let n = f.len();
    match shape {
        Shape::Whole => plain(digits::whole(f, k)),
        Shape::Fixed(places) => plain(digits::mantissa(f, k, places, n)),
        Shape::Expo(places) => {
            let e = n - 4;
            scaled(digits::mantissa(f, k, places, e), digits::exponent(f, e))
        }
    }
}

// What the bytes of a field of this shape say, whose width the caller has seen to. The blanks are looked
// at once, and what follows them is read by its place (docs/SPEED.md).
#[inline(always)]
pub fn shaped(f: &[u8], shape: Shape) -> Written
    requires { Fit shape (length f.now) }
    ensures { result ≡ decimal_of shape f.now }
{
    let n = f.len();
    let k = digits::skip(f, 0, n);
    if k < n {
        return number_in(f, k, shape);
    }
    Ok(None)
}

// What these bytes say as a field of this form. Bytes that are not as many as the form is wide are
// badly written.
pub fn read(f: &[u8], form: Form) -> Written
    ensures means { Means form f.now result }
    ensures value { result ≡ written form f.now }
{
    if f.len() != width(form) {
        return Err(BadlyWritten);
    }
    shaped(f, shape_of(form))
}
