// The C boundary (include/seobangyu.h), what a leader file says: a listed field. A call assumes nothing of
// what it is handed: an array that is too short is answered with 0, and then nothing is written.
#![tactic(auto)]

ghost use Rattle.std.specs.Prelude.{◌≡◌, ◌≤◌, length};
ghost use Rattle.c_answer.specs.Reply.{reply_of};
ghost use Rattle.c_answer.specs.Room.{answered};
ghost use Rattle.c_leader.specs.Calls.{field_said, value_room, value_by, field_value, field_answer};

use c_answer::Reply;
use fields::Field;

// How many numbers a value has.
const VALUE: usize = 2;

// What a field says; its value goes another way.
fn field_reply(x: Field) -> Reply
    ensures { result ≡ reply_of (field_said x) 0 }
{
    match x {
        Field::Value(_, _) => c_answer::brief(5, 0, 0),
        Field::Blank => c_answer::brief(6, 0, 0),
        Field::Refused(r) => c_answer::refusal(r, 0),
    }
}

// A value's number and exponent to the start of the value array; where there is no value, all stay.
fn put_value(x: Field, value: &mut [i64])
    requires { 2 ≤ length value.old }
    ensures { value.new ≡ value_by x value.old }
{
    if let Field::Value(m, e) = x {
        value[0] = m;
        value[1] = e;
    }
}

// A listed field: a value's number and exponent go to the value array.
pub fn sbg_field(bytes: &[u8], number: u64, value: &mut [i64], answer: &mut [u64]) -> u64
    ensures value { result ≡ answered (value_room value.old answer.old) }
    ensures value_after { value.new ≡ field_value number bytes.now value.old answer.old }
    ensures answer_after { answer.new ≡ field_answer number bytes.now value.old answer.old }
{
    if value.len() < VALUE {
        return 0;
    }
    c_answer::answer_with(
        answer,
        &mut || {
            let x = fields::listed_field(bytes, number);
            put_value(x, value);
            field_reply(x)
        },
    )
}
