// Runs examples of the line view, the row copy and the set check. The commands come on standard input,
// one to a line; tests/examples/lines.py makes them and what is to be answered. The program holds 65,536 bytes.
//
//   # TEXT                   is printed as it stands
//   c, p, b, q               change the bytes held (try_commands::run_in)
//   l LENGTH LINE            the view of a line in the first LENGTH bytes; then of the bytes that the
//                            caller is handed as its pixels their count and their check number
//   r LENGTH LINE MANY OLD   the row copy to a row of MANY samples that were all OLD, at most 256; then
//                            the whole row, so that a sample that had to stay is seen to
//   s LENGTH COUNT COUNT ..  the set check of the first LENGTH bytes against at most 16 counts
#![tactic(auto)]

use lines::{Shown, Unshown};
use std::fmt;
use try_commands::{Numbers, Refused, part};

// How many bytes of commands are read.
const READ: usize = 262144;

// How many bytes are held.
const HELD: usize = 65536;

// The most samples of a row, and the most counts of a set.
const SAMPLES: usize = 256;

const COUNTS: usize = 16;

// Why a line is not shown, as it is printed.
#[derive(Drop)]
struct Why(Unshown);

impl fmt::Display for Why {
    fn fmt<W: fmt::Write>(&self, f: &mut fmt::Formatter<W>) -> fmt::Result {
        match self.0 {
            Unshown::Wait(bytes) => write!(f, "WAIT {bytes}"),
            Unshown::Refused(refusal) => write!(f, "{}", Refused(refusal)),
        }
    }
}

// One number for bytes in their order, printed in place of what may be many: one other byte changes it.
fn check_of(bytes: &[u8]) -> u64 {
    let sum = bytes
        .iter()
        .fold(0, |sum, byte| sum % 65521 * 257 + u64::from(*byte) + 1);
    sum % 65521
}

fn view<P: Print>(rt: &P, bytes: &[u8], line: u64) -> std::io::Result<()> {
    match lines::line_view(bytes, line) {
        Ok(Shown { start, count, left }) => print!(rt; "SHOWN {start} {count} {left}")?,
        Err(why) => rt.print(Why(why))?,
    }
    let pixels = lines::pixels(bytes, line);
    println!(rt; " PIXELS {} {}", pixels.len(), check_of(pixels))
}

// The lent row is what is copied to, and nothing else is printed of it.
fn copy<P: Print>(rt: &P, bytes: &[u8], line: u64, row: &mut [u16]) -> std::io::Result<()> {
    match copies::row_copy(bytes, line, row) {
        Ok(samples) => print!(rt; "COPIED {samples}")?,
        Err(why) => rt.print(Why(why))?,
    }
    print!(rt; " ROW")?;
    for sample in row.iter() {
        print!(rt; " {sample}")?;
    }
    println!(rt;)
}

fn check<P: Print>(rt: &P, directory: &[u8], counts: &[u64]) -> std::io::Result<()> {
    match sets::check(directory, counts) {
        Ok(()) => println!(rt; "AGREES"),
        Err(refusal) => rt.println(Refused(refusal)),
    }
}

// The row that a command names. It stands in a function of its own, as the counts do: a function clears its
// arrays whenever it is called.
fn copy_lent<P: Print>(rt: &P, bytes: &[u8], mut numbers: Numbers<'_>) -> std::io::Result<()> {
    let line = numbers.number();
    let many = (numbers.number() as usize).min(SAMPLES);
    let mut row = [(numbers.number() & 0xffff) as u16; SAMPLES];
    copy(rt, bytes, line, &mut row[..many])
}

// The numbers that are left, as many as there is room for: how many they are.
fn counts_of(numbers: Numbers<'_>, counts: &mut [u64]) -> usize {
    let mut many = 0;
    for number in numbers {
        let Some(count) = counts.get_mut(many) else {
            break;
        };
        *count = number;
        many += 1;
    }
    many
}

fn check_counts<P: Print>(rt: &P, directory: &[u8], numbers: Numbers<'_>) -> std::io::Result<()> {
    let mut counts = [0; COUNTS];
    let many = counts_of(numbers, &mut counts);
    check(rt, directory, &counts[..many.min(COUNTS)])
}

// The commands that ask something of the first bytes held.
fn ask<P: Print>(rt: &P, op: u8, mut numbers: Numbers<'_>, held: &[u8]) -> std::io::Result<()> {
    let bytes = part(held, 0, numbers.number());
    match op {
        b'l' => view(rt, bytes, numbers.number()),
        b'r' => copy_lent(rt, bytes, numbers),
        b's' => check_counts(rt, bytes, numbers),
        _ => Ok(()),
    }
}

// What could not be read or written is told to nobody, and the exit status is 0: the stored answers tell.
fn main(rt: HostRuntime) {
    let mut input = [0; READ];
    let mut bytes = [0; HELD];
    try_commands::run_in(
        &rt,
        &mut input,
        &mut bytes,
        |op, numbers, held| ask(&rt, op, numbers, held),
    );
}
