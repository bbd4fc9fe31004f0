// The row copy (document 01, "Lines, rows, sets"): what the line view shows, as 16-bit numbers in a row
// that the caller lends.
#![tactic(auto)]

ghost use Rattle.std.specs.Prelude.{◌≡◌, ◌++◌, ◌+◌, ◌*◌, ◌≤◌, ◌%◌, ◌/◌, length, drop};
ghost use Rattle.words.specs.Words.{two_at};
ghost use Rattle.copies.specs.Row.{samples, copied_of, row_of};

use lines::Unshown;

// What the row copy answers: how many samples were copied; or a wait or a refusal, and nothing was.
pub type Copied = Result<u64, Unshown>;

// A sample of two bytes that are there, high byte first.
fn sample(px: &[u8], at: usize) -> u16
    requires { at + 2 ≤ length px.now }
    ensures { result ≡ two_at px.now at }
{
    u16::from_be_bytes([px[at], px[at + 1]])
}

// That many samples of two bytes, high byte first, to the row's start; later samples stay.
fn write(px: &[u8], count: usize, row: &mut [u16])
    requires { (2 * count ≤ length px.now) × (count ≤ length row.old) }
    ensures { row.new ≡ samples count px.now ++ drop count row.old }
{
    for (j, x) in row[..count].iter_mut().enumerate() {
        *x = sample(px, 2 * j);
    }
}

// The row copy: the line's data pixels as 16-bit numbers to the start of the lent row. 23 where they are
// no counts (document 02, No. 2), and 15 comes last; on a wait or a refusal every sample stays.
pub fn row_copy(bytes: &[u8], k: u64, row: &mut [u16]) -> Copied
    ensures value { result ≡ copied_of bytes.now k (length row.old) }
    ensures row_after { row.new ≡ row_of bytes.now k row.old }
{
    let x = lines::sorted_view(bytes, k);
    let shown = x.view?;
    if x.sort != plan::COUNTS {
        return Err(Unshown::Refused(words::bare(23)));
    }
    let count = shown.count;
    if (row.len() as u64) < count {
        return Err(Unshown::Refused(words::bare(15)));
    }
    let from = shown.start as usize;
    let to = (shown.start + 2 * count) as usize;
    write(&bytes[from..to], count as usize, row);
    Ok(count)
}
