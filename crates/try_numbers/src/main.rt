// Runs examples of written numbers and of the field reader. The commands come on standard input,
// one to a line; tests/examples/numbers.py makes them and what is to be answered.
//
//   # TEXT              is printed as it stands
//   d FORM:TEXT         what TEXT says in form 1 to 7 (I4 I6 I8 I16 F8.3 F16.7 E20.13)
//   c VALUE             every byte of the record becomes VALUE
//   p BYTE:TEXT         TEXT is put into the record from byte BYTE (from 1) on
//   b BYTE VALUE        one byte of it
//   f NUMBER LENGTH     the listed field NUMBER of the record's first LENGTH bytes
//   a PLACE FORM LENGTH the field at PLACE (from 0) of the record's first LENGTH bytes
//   2 PLACE LENGTH      the two bytes, and
//   4 PLACE LENGTH      the four bytes from PLACE on, of the first LENGTH bytes
#![tactic(auto)]

use decimal::{Form, Number, Written};
use fields::Field;
use std::fmt;
use try_commands::{Numbers, Refused, part};

// How many bytes of commands are read.
const READ: usize = 65536;

// How many bytes of a record are held.
const HELD: usize = 4096;

fn form_of(code: u64) -> Form {
    match code {
        1 => Form::I4,
        2 => Form::I6,
        3 => Form::I8,
        4 => Form::I16,
        5 => Form::F8d3,
        6 => Form::F16d7,
        _ => Form::E20d13,
    }
}

// What a text or a field says, as it is printed; an error has its own words.
#[derive(Drop)]
struct Answer<E>(Result<Option<Number>, E>);

impl From<Written> for Answer<&'static str> {
    fn from(written: Written) -> Self {
        Answer(written.map_err(|_| "BAD"))
    }
}

impl From<Field> for Answer<Refused> {
    fn from(field: Field) -> Self {
        Answer(match field {
            Field::Value(units, exponent) => Ok(Some(Number { units, exponent })),
            Field::Blank => Ok(None),
            Field::Refused(refusal) => Err(Refused(refusal)),
        })
    }
}

impl<E: fmt::Display> fmt::Display for Answer<E> {
    fn fmt<W: fmt::Write>(&self, f: &mut fmt::Formatter<W>) -> fmt::Result {
        match &self.0 {
            Ok(Some(Number { units, exponent })) => write!(f, "VALUE {units} {exponent}"),
            Ok(None) => f.write_str("BLANK"),
            Err(error) => write!(f, "{error}"),
        }
    }
}

// The commands that ask something of a text, or of the record's first bytes.
fn ask<P: Print>(rt: &P, op: u8, mut numbers: Numbers<'_>, held: &[u8]) -> std::io::Result<()> {
    let first = numbers.number();
    if op == b'd' {
        let written = decimal::read(numbers.text(), form_of(first));
        return rt.println(Answer::from(written));
    }
    let at = first as usize;
    let second = numbers.number();
    let bytes = part(held, 0, second);
    match op {
        b'f' => rt.println(Answer::from(fields::listed_field(bytes, first))),
        b'a' => {
            let bytes = part(held, 0, numbers.number());
            rt.println(Answer::from(fields::field_at(bytes, at, form_of(second))))
        }
        b'2' => println!(rt; "NUMBER {}", words::two(bytes, at)),
        b'4' => println!(rt; "NUMBER {}", words::four(bytes, at)),
        _ => Ok(()),
    }
}

// What could not be read or written is told to nobody, and the exit status is 0: the stored answers tell.
fn main(rt: HostRuntime) {
    let mut input = [0; READ];
    let mut bytes = [0; HELD];
    try_commands::run_in(
        &rt,
        &mut input,
        &mut bytes,
        |op, numbers, held| ask(&rt, op, numbers, held),
    );
}
