// Runs examples of the listing. The commands come on standard input, one to a line; tests/examples/listing.py
// makes them and what is to be answered. The program holds 65,536 bytes.
//
//   # TEXT           is printed as it stands
//   c, p, b, q       change the bytes held (try_commands::run_in)
//   l LENGTH PIECE   the listing of the first LENGTH bytes, as if they arrived in pieces of at most PIECE
//                    bytes (streams::list_in)
#![tactic(auto)]

use std::io::{Read, sink, writer};
use try_commands::{Numbers, part};

// How many bytes of commands are read.
const READ: usize = 262144;

// How many bytes are held.
const HELD: usize = 65536;

// Bytes that arrive in pieces of at most so many.
#[derive(Drop)]
struct Pieces<'a> {
    left: &'a [u8],
    piece: usize,
}

impl Read for Pieces<'_> {
    fn read(&mut self, buf: &mut [u8]) -> std::io::Result<usize> {
        let most = self.piece.min(buf.len());
        self.left.read(&mut buf[..most])
    }
}

fn ask<P: Print>(
    rt: &P,
    room: &mut [u8; streams::RECORD],
    op: u8,
    mut numbers: Numbers<'_>,
    held: &[u8],
) -> std::io::Result<()> {
    if op == b'l' {
        let left = part(held, 0, numbers.number());
        let piece = numbers.number() as usize;
        streams::list_in(
            room,
            &mut Pieces { left, piece },
            &mut writer(rt),
            &mut sink(),
        );
    }
    Ok(())
}

// What could not be read or written is told to nobody, and the exit status is 0: the stored answers tell.
fn main(rt: HostRuntime) {
    let mut input = [0; READ];
    let mut bytes = [0; HELD];
    let mut room = [0; streams::RECORD];
    try_commands::run_in(
        &rt,
        &mut input,
        &mut bytes,
        |op, numbers, held| ask(&rt, &mut room, op, numbers, held),
    );
}
