// The listing over streams: reads no more than a turn of `listing` wants, one record at a time, and
// prints what it says. No contract can say what a stream gives: what is promised here is that it ends.
#![tactic(auto)]

ghost use Rattle.std.specs.Prelude.{◌≡◌, ◌≤◌, length, drop};

use listing::Say;
use rows::Row;
use std::fmt;
use std::io::{Read, Write};
use walk::State;

// Room for one record, the longest that a turn holds.
pub const RECORD: usize = 32768;

// Where the listing stands: the state, how many bytes of the next record are held, and whether the input
// has ended.
#[derive(Clone, Copy)]
struct Going {
    state: State,
    held: usize,
    closed: bool,
}

// What a stream did not do.
#[derive(Clone, Copy)]
enum Failed {
    Read,
    Write,
}

impl fmt::Display for Failed {
    fn fmt<W: fmt::Write>(&self, f: &mut fmt::Formatter<W>) -> fmt::Result {
        f.write_str(match self {
            Failed::Read => "read",
            Failed::Write => "write",
        })
    }
}

fn print<W: Write>(row: Row, output: &mut W) -> Result<(), Failed> {
    let mut line = [0u8; 96];
    let length = rows::spell(row, &mut line);
    output.write_all(&line[..length]).map_err(|_| Failed::Write)
}

impl Going {
    // At most so many bytes more are read behind those held, by one read. No byte is the input's end; an
    // error is not, and nothing more is printed then.
    fn fetch<R: Read>(self, buffer: &mut [u8], want: u64, input: &mut R) -> Result<Going, Failed> {
        let from = self.held.min(buffer.len());
        let most = (want as usize).min(buffer.len() - from);
        let room = &mut buffer[from..from + most];
        let got = input.read(room).map_err(|_| Failed::Read)?;
        Ok(Going {
            held: from + got,
            closed: got == 0,
            ..self
        })
    }

    // One turn, and what it asks for; behind the last row nothing goes on. No more is read than is wanted,
    // so a record that passes is all that is held.
    fn advance<R: Read, W: Write>(
        self,
        buffer: &mut [u8],
        input: &mut R,
        output: &mut W,
    ) -> Result<Option<Going>, Failed> {
        let held = self.held.min(buffer.len());
        let told = listing::turn(self.state, &buffer[..held], self.closed);
        match told.say {
            Say::Want(bytes) => Ok(Some(self.fetch(buffer, bytes, input)?)),
            Say::Next(row) => {
                print(row, output)?;
                Ok(Some(Going {
                    state: told.state,
                    held: 0,
                    ..self
                }))
            }
            Say::Last(row) => {
                print(row, output)?;
                Ok(None)
            }
        }
    }
}

// The turns, to the last row. A proved loop has to end, so they are counted up to a number that no run
// reaches.
fn list_rows<R: Read, W: Write>(
    buffer: &mut [u8],
    input: &mut R,
    output: &mut W,
) -> Result<(), Failed> {
    let mut going = Going {
        state: listing::begin(),
        held: 0,
        closed: false,
    };
    for _ in 0..u64::MAX {
        match going.advance(buffer, input, output)? {
            Some(next) => going = next,
            None => break,
        }
    }
    Ok(())
}

// Lists the image that the input gives, as a stream: a row is printed as soon as its record has passed,
// where neither stream keeps a buffer (std's own keep none). What fails is said where errors go, in three
// writes, each tried whatever became of the one before; where they fail too, there is nobody to tell.
pub fn list<R: Read, W: Write, E: Write>(input: &mut R, output: &mut W, errors: &mut E) {
    let mut room = [0; RECORD];
    list_in(&mut room, input, output, errors);
}

// The same in room for one record that is lent, so that who lists often clears it once. What lies behind a
// record's room stays.
pub fn list_in<R: Read, W: Write, E: Write>(
    room: &mut [u8],
    input: &mut R,
    output: &mut W,
    errors: &mut E,
)
    requires { 32768 ≤ length room.old }
    ensures { drop 32768 room.new ≡ drop 32768 room.old }
{
    if let Err(failed) = list_rows(&mut room[..RECORD], input, output) {
        let _ = errors.write_all(b"ceoslist: ");
        let _ = write!(errors, "{failed}");
        let _ = errors.write_all(b" failed\n");
    }
}
