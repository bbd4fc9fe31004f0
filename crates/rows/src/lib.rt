// The rows of the listing of an image (document 01, "Lines, rows, sets"), and how each is spelt.
#![tactic(auto)]

ghost use Rattle.std.specs.Prelude.{◌≡◌, ◌+◌, ◌≤◌, length, take, drop};
ghost use Rattle.io.specs.Counts.{IsPrefixLen};
ghost use Rattle.rows.specs.Text.{with, text_of};

use words::Refusal;

// A row of the listing: lines and pixels; a line's number and its left, data and right counts; L is
// over 32,768; records and bytes; a refusal.
#[derive(Clone, Copy)]
pub enum Row {
    Image(u64, u64),
    Line(u64, u64, u64, u64),
    TooLong,
    Complete(u64, u64),
    Refused(Refusal),
}

// A word and a number behind what stands in the line. A number has at most 20 digits.
fn part(line: &mut [u8], at: usize, word: &[u8], n: u64) -> usize
    requires { at + length word.now + 20 ≤ length line.old }
    ensures line_after { take result line.new ≡ with (take at line.old) word.now n }
    ensures upper_bound { result ≤ at + length word.now + 20 }
    ensures lower_bound { at ≤ result }
    ensures line_unchanged { drop result line.new ≡ drop result line.old }
{
    let from = writing::text(line, at, word);
    writing::numeral(line, from, n)
}

// The row as it is printed, to the start of the line; its length. The line behind it stays.
pub fn spell(row: Row, line: &mut [u8; 96]) -> usize
    ensures line_after { take result line.new ≡ text_of row }
    ensures line_unchanged { drop result line.new ≡ drop result line.old }
    ensures prefix_len { IsPrefixLen result line.new }
{
    match row {
        Row::Image(n, w) => {
            let a = part(line, 0, b"IMAGE ", n);
            let b = part(line, a, b" LINES ", w);
            writing::text(line, b, b" PIXELS\n")
        }
        Row::Line(k, left, data, right) => {
            let a = part(line, 0, b"", k);
            let b = part(line, a, b" ", left);
            let c = part(line, b, b" ", data);
            let d = part(line, c, b" ", right);
            writing::text(line, d, b"\n")
        }
        Row::TooLong => writing::text(line, 0, b"RECORD TOO LONG\n"),
        Row::Complete(r, n) => {
            let a = part(line, 0, b"COMPLETE ", r);
            let b = part(line, a, b" RECORDS ", n);
            writing::text(line, b, b" BYTES\n")
        }
        Row::Refused(x) => {
            let a = part(line, 0, b"REFUSED ", x.number);
            let b = part(line, a, b" RECORD ", x.record);
            let c = part(line, b, b" AT ", x.place);
            writing::text(line, c, b"\n")
        }
    }
}
