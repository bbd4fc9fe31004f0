// The complex row copy (request No. 2): what the line view shows of complex samples, as patterns of 32 bits in a
// row that the caller lends, two a sample.
#![tactic(auto)]

ghost use Rattle.std.specs.Prelude.{◌≡◌, ◌++◌, ◌+◌, ◌*◌, ◌≤◌, ◌%◌, ◌/◌, length, drop};
ghost use Rattle.words.specs.Words.{four_at};
ghost use Rattle.complex_rows.specs.Parts.{fours, parts, parts_copied_by, parts_row_by, parts_copied, parts_row};

use copies::Copied;
use lines::{Unshown, View};

// Number j, from 0, of those of four bytes that start there, some of which may lie behind the bytes.
fn four_in(bytes: &[u8], start: u64, j: u64) -> u32
    ensures { result ≡ four_at bytes.now (start + 4 * j) }
{
    let at = start.saturating_add(j.saturating_mul(4));
    words::four(bytes, at as usize) as u32
}

// That many numbers of four bytes to the row's start, where some may lie behind the bytes; later numbers stay.
fn write_short(bytes: &[u8], start: u64, count: usize, row: &mut [u32])
    requires { count ≤ length row.old }
    ensures { row.new ≡ fours bytes.now start count ++ drop count row.old }
{
    for (j, x) in row[..count].iter_mut().enumerate() {
        *x = four_in(bytes, start, j as u64);
    }
}

// A number of four bytes that are there, high byte first.
fn number(bytes: &[u8], at: usize) -> u32
    requires { at + 4 ≤ length bytes.now }
    ensures { result ≡ four_at bytes.now at }
{
    u32::from_be_bytes([bytes[at], bytes[at + 1], bytes[at + 2], bytes[at + 3]])
}

// The same of numbers that have all come, each read without a test.
// kept: beside `write_short`, which reads a number otherwise; a closure for that needs more clauses than this loop has lines.
fn write(bytes: &[u8], start: usize, count: usize, row: &mut [u32])
    requires { (start + 4 * count ≤ length bytes.now) × (count ≤ length row.old) }
    ensures { row.new ≡ fours bytes.now start count ++ drop count row.old }
{
    for (j, x) in row[..count].iter_mut().enumerate() {
        *x = number(bytes, start + 4 * j);
    }
}

// The parts of that many samples that start there, two numbers each, to the row's start; later numbers stay.
fn fill(bytes: &[u8], start: u64, count: usize, row: &mut [u32])
    requires { 2 * count ≤ length row.old }
    ensures { row.new ≡ parts bytes.now start count ++ drop (2 * count) row.old }
{
    let len = bytes.len() as u64;
    if start <= len && count as u64 <= (len - start) / 8 {
        write(bytes, start as usize, 2 * count, row);
    } else {
        write_short(bytes, start, 2 * count, row);
    }
}

// The complex row copy: the patterns of the line's samples, real then imaginary, to the start of the lent row.
// 23 for counts, then 15; on a wait or a refusal every number stays. The answer counts samples.
pub fn complex_row_in(bytes: &[u8], v: View, sort: u64, row: &mut [u32]) -> Copied
    ensures value { result ≡ parts_copied_by v sort (length row.old) }
    ensures row_after { row.new ≡ parts_row_by v sort bytes.now row.old }
{
    let shown = v?;
    if !samples::is_complex(sort) {
        return Err(Unshown::Refused(words::bare(23)));
    }
    let count = shown.count;
    if (row.len() as u64) / 2 < count {
        return Err(Unshown::Refused(words::bare(15)));
    }
    fill(bytes, shown.start, count as usize, row);
    Ok(count)
}

// The complex row copy of line k of an image prefix held from byte 0: the line's own wait or refusal, then 23
// for counts, then 15.
pub fn complex_row(bytes: &[u8], k: u64, row: &mut [u32]) -> Copied
    ensures value { result ≡ parts_copied bytes.now k (length row.old) }
    ensures row_after { row.new ≡ parts_row bytes.now k row.old }
{
    let x = lines::sorted_view(bytes, k);
    complex_row_in(bytes, x.view, x.sort, row)
}
