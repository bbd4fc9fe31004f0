// The lines of an image that pass one after the other (document 01, "The record and the walk"): their
// turns differ in the line number alone, so the walk counts them at once. What a turn is does not depend
// on it: `walk` shows that the count is that of the turns.
#![tactic(auto)]

ghost use Rattle.std.specs.Prelude.{◌≡◌, ◌+◌, ◌≤◌, length};
ghost use Rattle.plan.specs.Plan.{line_codes, records_most};
ghost use Rattle.verdicts.specs.Tests.{all_hold};
ghost use Rattle.headers.specs.Header.{header_tests};
ghost use Rattle.ahead.specs.Lines.{codes_number, line_fine, lines_fine};

// A line's four code bytes as one number, by the image's sort.
fn codes_of(sort: u64) -> u64
    ensures { result ≡ codes_number sort }
{
    (50 * 256 + plan::sort_at(sort).code) * 65536 + (18 * 256 + 20)
}

// A line's header on bytes that have come. The codes are compared at once: a sort's are known only as the
// walk runs, and four of them cost a run of short lines a fourth more (docs/SPEED.md).
fn header_fine(sort: u64, codes: u64, l: u64, k: u64, b: &[u8]) -> bool
    requires { (codes ≡ codes_number sort) × (k ≤ records_most) × (12 ≤ length b.now) }
    ensures { result ≡ all_hold (header_tests (k + 1) (line_codes sort) l b.now) }
{
    let number = words::four_there(b, 0);
    let coded = words::four_there(b, 4);
    let length = words::four_there(b, 8);
    number == k + 1 && coded == codes && length == l
}

// Line k's record, of that sort, begins these bytes, is whole, has room for a line's numbers, and holds what it must.
#[tactic(auto, unfolding(crate::specs::Lines::line_fine))]
fn line_fine(sort: u64, codes: u64, w: u64, l: u64, k: u64, b: &[u8]) -> bool
    requires { (codes ≡ codes_number sort) × (k ≤ records_most) }
    ensures { result ≡ line_fine sort w l k b.now }
{
    if (b.len() as u64) < l || l < 32 {
        return false;
    }
    header_fine(sort, codes, l, k, b) && image::line_there(w, k, &b[..l as usize])
}

// How many lines from line k on pass one after the other, at most that many.
pub fn lines_ahead(sort: u64, w: u64, l: u64, k: u64, most: u64, b: &[u8]) -> u64
    requires { k + most ≤ records_most }
    ensures { result ≡ lines_fine sort w l k most b.now }
{
    let codes = codes_of(sort);
    let mut at: usize = 0;
    for c in 0..most {
        if !line_fine(sort, codes, w, l, k + c, &b[at..]) {
            return c;
        }
        at += l as usize;
    }
    most
}
