// Commands for the programs that run examples: a line is one byte of operation, then numbers and a
// text, as `f 12 4096` or `d 5:  90.000`. Nothing here is part of the reader; it is proved safe and
// ending, and what the programs print is compared with the stored output, what `run` does with its test's
// cases.
#![tactic(auto)]

ghost use Rattle.std.specs.Prelude.{◌≤◌, length};
ghost use Rattle.std.specs.Iterator.{at_most};

#[cfg(test)]
mod tests;

use std::fmt;
use std::io::{BufRead, BufReader, Input, Read};
use words::Refusal;

// What a command line holds behind its operation's byte. Each number stands behind one byte, a blank or
// a colon, which ends what stood before it; there are numbers until the line ends.
#[derive(Clone, Copy)]
pub struct Numbers<'a> {
    rest: &'a [u8],
}

impl Iterator for Numbers<'_> {
    type Item = u64;

    ghost remaining = { λ numbers. at_most (length numbers.rest.now) };

    fn next(&mut self) -> Option<u64> {
        let (_, text) = self.rest.split_first()?;
        let (number, rest) = take_number(text);
        self.rest = rest;
        Some(number)
    }
}

impl<'a> Numbers<'a> {
    // The next number; 0 where the line has ended.
    pub fn number(&mut self) -> u64 {
        self.next().unwrap_or(0)
    }

    // The text behind the byte that ended the last number.
    pub fn text(self) -> &'a [u8] {
        self.rest.get(1..).unwrap_or(&[])
    }
}

// The number with one digit more; None where the byte is no digit, or the number would pass 64 bits.
fn with_digit(number: u64, byte: u8) -> Option<u64> {
    let digit = char::from(byte).to_digit(10)?;
    number.checked_mul(10)?.checked_add(u64::from(digit))
}

// The digits that a text begins with as a number, and what stands behind them.
fn take_number(text: &[u8]) -> (u64, &[u8])
    ensures { length result.1.now ≤ length text.now }
{
    let mut number = 0;
    for (at, byte) in text.iter().enumerate() {
        match with_digit(number, *byte) {
            Some(longer) => number = longer,
            None => return (number, &text[at..]),
        }
    }
    (number, &[])
}

// The text is put into the buffer from a place on, as far as it reaches.
pub fn put(held: &mut [u8], at: usize, text: &[u8]) {
    let at = at.min(held.len());
    for (to, from) in held[at..].iter_mut().zip(text) {
        *to = *from;
    }
}

// The commands that change the bytes held: `c VALUE` all of them, `p BYTE:TEXT` a text from byte BYTE
// (from 1) on, `b BYTE VALUE` one byte, `q BYTE VALUE` a four-byte number, high byte first. Any other
// operation changes nothing.
pub fn change(op: u8, mut numbers: Numbers<'_>, held: &mut [u8]) {
    let first = numbers.number();
    let at = words::place((first as usize).min(held.len()));
    match op {
        b'c' => held.fill(first.to_be_bytes()[7]),
        b'p' => put(held, at, numbers.text()),
        b'b' => put(held, at, &numbers.number().to_be_bytes()[7..]),
        b'q' => put(held, at, &numbers.number().to_be_bytes()[4..]),
        _ => (),
    }
}

// The bytes that a command names, as far as they are held.
pub fn part(held: &[u8], from: u64, long: u64) -> &[u8] {
    let rest = &held[(from as usize).min(held.len())..];
    &rest[..(long as usize).min(rest.len())]
}

// The bytes that come, as many as there is room for; where reading fails, those that had come.
fn read_all<R: Read>(reader: &mut R, room: &mut [u8]) -> usize
    ensures { result ≤ length room.old }
{
    let mut filled = 0;
    for _ in 0..room.len() {
        match reader.read(&mut room[filled..]) {
            Ok(got) if got > 0 => filled += got,
            _ => break,
        }
    }
    filled
}

// Runs the commands of standard input, one to a line, of which at most so many bytes are read, over so many
// bytes held: `# TEXT` is printed as it stands, and any other operation is answered by `ask`, c, p, b and q
// once they have changed the bytes held. Each is done before the next line is split off; the bytes and the
// lines are the heap's, and the first read, write or answer that fails ends it with its error. It stands for
// callers elsewhere: the programs here call `run_in`.
pub fn run<R, F>(rt: &R, most: u64, held: usize, mut ask: F) -> std::io::Result<()>
where
    R: AllocGlobal + Input + Print,
    F: FnMut(u8, Numbers<'_>, &[u8]) -> std::io::Result<()>,
    requires { F.IsAlwaysCallable ask }
{
    let mut bytes = vec![in rt.alloc(); 0u8; held]?;
    for line in BufReader::new(rt.alloc(), rt.reader().take(most))?.split(rt.alloc(), b'\n') {
        let line = line?;
        let Some((&op, rest)) = line.split_first() else {
            continue;
        };
        if op == b'#' {
            rt.write_all(&line)?;
            rt.write_all(b"\n")?;
        } else {
            let numbers = Numbers { rest };
            change(op, numbers, &mut bytes);
            ask(op, numbers, &bytes)?;
        }
    }
    Ok(())
}

// The same in lent room, without a heap: all that come and have room are read before the first is done. What
// could not be written is told to nobody, and the next command is done all the same.
pub fn run_in<R, F>(rt: &R, room: &mut [u8], held: &mut [u8], mut ask: F)
where
    R: Input + Print,
    F: FnMut(u8, Numbers<'_>, &[u8]) -> std::io::Result<()>,
    requires { F.IsAlwaysCallable ask }
{
    let filled = read_all(&mut rt.reader(), room);
    for line in room[..filled].split(|&byte| byte == b'\n') {
        let Some((&op, rest)) = line.split_first() else {
            continue;
        };
        if op == b'#' {
            let _ = rt.write_all(line);
            let _ = rt.write_all(b"\n");
        } else {
            let numbers = Numbers { rest };
            change(op, numbers, held);
            let _ = ask(op, numbers, held);
        }
    }
}

// A refusal as the programs print it.
#[derive(Clone, Copy)]
pub struct Refused(pub Refusal);

impl fmt::Display for Refused {
    fn fmt<W: fmt::Write>(&self, f: &mut fmt::Formatter<W>) -> fmt::Result {
        let Refused(why) = self;
        write!(
            f,
            "REFUSED {} RECORD {} AT {}",
            why.number, why.record, why.place
        )
    }
}
