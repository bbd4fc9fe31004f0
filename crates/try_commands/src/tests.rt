// What `run` reads, prints, asks and hands back, at a runtime whose streams are memory.
use super::*;
use std::alloc::{Allocator, Global};
use std::cell::RefCell;
use std::fmt::Display;
use std::io::{Chain, Error, ErrorKind, Lines, Result, Write, writer};
use std::process::Abort;
use std::test::Fail;

// What stands behind the text of standard input: its end, or a read that fails.
#[derive(Clone, Copy, Drop)]
struct Behind {
    fails: bool,
}

impl Read for Behind {
    fn read(&mut self, _buf: &mut [u8]) -> Result<usize> {
        if self.fails {
            return Err(Error::from(ErrorKind::TimedOut));
        }
        Ok(0)
    }
}

impl BufRead for Behind {
    fn fill_buf(&mut self) -> Result<&[u8]> {
        if self.fails {
            return Err(Error::from(ErrorKind::TimedOut));
        }
        Ok(&[])
    }

    fn consume(&mut self, _amount: usize) {}
}

// Standard output keeps the bytes that it has room for, and takes no more.
#[derive(Drop)]
struct Streams<'a> {
    input: &'a [u8],
    behind: Behind,
    output: RefCell<Vec<u8>>,
    room: usize,
    heap: Global,
}

impl Alloc for Streams<'_> {
    type A = Global;

    fn alloc(&self) -> Global {
        self.heap
    }
}

impl<'a> Input for Streams<'a> {
    type Reader = Chain<&'a [u8], Behind>;

    fn read_line<A: Allocator + Clone>(&self, buf: &mut String<A>) -> Result<usize> {
        self.reader().read_line(buf)
    }

    fn lines<A: Allocator>(&self, alloc: A) -> Lines<Chain<&'a [u8], Behind>, A> {
        self.reader().lines(alloc)
    }

    fn reader(&self) -> Chain<&'a [u8], Behind> {
        self.input.chain(self.behind)
    }
}

impl Print for Streams<'_> {
    fn print<D: Display + Drop>(&self, _value: D) -> Result<()> {
        Err(Error::from(ErrorKind::Unsupported))
    }

    fn println<D: Display + Drop>(&self, _value: D) -> Result<()> {
        Err(Error::from(ErrorKind::Unsupported))
    }

    fn write_all(&self, bytes: &[u8]) -> Result<()> {
        let Ok(mut output) = self.output.try_borrow_mut() else {
            return Err(Error::from(ErrorKind::Other));
        };
        if self.room < output.len() || self.room - output.len() < bytes.len() {
            return Err(Error::from(ErrorKind::StorageFull));
        }
        output.extend_from_slice(bytes)?;
        Ok(())
    }
}

// What a command is answered with: its operation, its first number and the bytes held. `z` fails.
fn answer(rt: &Streams<'_>, op: u8, mut numbers: Numbers<'_>, held: &[u8]) -> Result<()> {
    if op == b'z' {
        return Err(Error::from(ErrorKind::InvalidInput));
    }
    let first = numbers.number();
    writeln!(writer(rt), "{}{first} {held:?}", char::from(op))
}

// The streams and the numbers of a run, and what it is to print and to end with.
#[derive(Clone, Copy)]
struct Case {
    input: &'static [u8],
    fails: bool,
    most: u64,
    held: usize,
    room: usize,
    printed: &'static [u8],
    ended: Option<ErrorKind>,
}

const PLAIN: Case = Case {
    input: b"",
    fails: false,
    most: u64::MAX,
    held: 2,
    room: 1000,
    printed: b"",
    ended: None,
};

impl Case {
    fn holds<R: Abort + AllocGlobal>(self, rt: &R) -> std::result::Result<(), Fail> {
        let streams = Streams {
            input: self.input,
            behind: Behind { fails: self.fails },
            output: RefCell::new(Vec::new(rt.alloc())),
            room: self.room,
            heap: rt.alloc(),
        };
        let ended = run(
            &streams,
            self.most,
            self.held,
            |op, numbers, held| answer(&streams, op, numbers, held),
        );
        assert_eq!(rt; ended.err().map(|why| why.kind()), self.ended);
        assert_eq!(rt; streams.output.try_borrow()?.as_slice(), self.printed);
        Ok(())
    }
}

#[test]
fn commands_change_what_is_held(rt: HostRuntime) -> std::result::Result<(), Fail> {
    let input = b"# marks\nf 7\n\nc 65\nq 2 16909060\np 1:hello\nb 2 9\nf 18446744073709551616";
    let printed =
        b"# marks\nf7 [0, 0]\nc65 [65, 65]\nq2 [65, 1]\np1 [104, 101]\nb2 [104, 9]\nf1844674407370955161 [104, 9]\n";
    Case {
        input,
        printed,
        ..PLAIN
    }
    .holds(&rt)?;
    Case {
        input: b"q 2 16909060",
        held: 6,
        printed: b"q2 [0, 1, 2, 3, 4, 0]\n",
        ..PLAIN
    }
    .holds(&rt)?;
    Case {
        input: b"p 1:x",
        held: 0,
        printed: b"p1 []\n",
        ..PLAIN
    }
    .holds(&rt)
}

#[test]
fn reads_so_many_bytes(rt: HostRuntime) -> std::result::Result<(), Fail> {
    let input = b"f 12\nf 8\n";
    Case {
        input,
        most: 3,
        printed: b"f1 [0, 0]\n",
        ..PLAIN
    }
    .holds(&rt)?;
    Case {
        input,
        most: 0,
        ..PLAIN
    }
    .holds(&rt)
}

#[test]
fn ends_with_what_fails(rt: HostRuntime) -> std::result::Result<(), Fail> {
    let first = Case {
        printed: b"f1 [0, 0]\n",
        ..PLAIN
    };
    Case {
        input: b"f 1\nz\nf 2\n",
        ended: Some(ErrorKind::InvalidInput),
        ..first
    }
    .holds(&rt)?;
    Case {
        input: b"f 1\nf 2",
        fails: true,
        ended: Some(ErrorKind::TimedOut),
        ..first
    }
    .holds(&rt)?;
    let full = Case {
        input: b"f 1\n# marks\nz\n",
        room: 12,
        ended: Some(ErrorKind::StorageFull),
        ..first
    };
    full.holds(&rt)?;
    Case {
        room: 17,
        printed: b"f1 [0, 0]\n# marks",
        ..full
    }
    .holds(&rt)
}
