// The C boundary (include/seobangyu.h), an image held from byte 0: line, row. A call assumes nothing of what
// it is handed: an array that is too short is answered with 0, and then nothing is written.
#![tactic(auto)]

ghost use Rattle.std.specs.Prelude.{◌≡◌, length};
ghost use Rattle.lines.specs.View.{view_of};
ghost use Rattle.copies.specs.Row.{copied_of};
ghost use Rattle.lines.specs.Said.{unshown_as, view_as};
ghost use Rattle.copies.specs.Said.{copied_as};
ghost use Rattle.c_answer.specs.Reply.{reply_of};
ghost use Rattle.c_answer.specs.Room.{fits, answered, answer_of};
ghost use Rattle.c_image.specs.Calls.{row_behind};

use c_answer::Reply;
use copies::Copied;
use lines::{Unshown, View};

// Why nothing is shown.
pub fn unshown_reply(x: Unshown) -> Reply
    ensures { result ≡ reply_of (unshown_as x) 0 }
{
    match x {
        Unshown::Wait(n) => c_answer::brief(1, n, 0),
        Unshown::Refused(r) => c_answer::refusal(r, 0),
    }
}

// What a line view answers.
fn view_reply(x: View) -> Reply
    ensures { result ≡ reply_of (view_as x) 0 }
{
    match x {
        Ok(shown) => Reply {
            tag: 7,
            a: shown.start,
            b: shown.count,
            c: shown.left,
            count: 0,
        },
        Err(x) => unshown_reply(x),
    }
}

// What a row copy answers.
pub fn copy_reply(x: Copied) -> Reply
    ensures { result ≡ reply_of (copied_as x) 0 }
{
    match x {
        Ok(n) => c_answer::brief(8, n, 0),
        Err(x) => unshown_reply(x),
    }
}

// The line view of an image prefix held from byte 0.
pub fn sbg_line(bytes: &[u8], line: u64, answer: &mut [u64]) -> u64
    ensures value { result ≡ answered (fits 5 answer.old) }
    ensures answer_after { answer.new ≡ answer_of (view_as (view_of bytes.now line)) answer.old }
{
    c_answer::answer_with(answer, &mut || view_reply(lines::line_view(bytes, line)))
}

// The row copy; a short row is refusal 15.
pub fn sbg_row(bytes: &[u8], line: u64, row: &mut [u16], answer: &mut [u64]) -> u64
    ensures value { result ≡ answered (fits 5 answer.old) }
    ensures row_after { row.new ≡ row_behind line bytes.now row.old answer.old }
    ensures answer_after { answer.new ≡ answer_of (copied_as (copied_of bytes.now line (length row.old))) answer.old }
{
    c_answer::answer_with(
        answer,
        &mut || copy_reply(copies::row_copy(bytes, line, row)),
    )
}
