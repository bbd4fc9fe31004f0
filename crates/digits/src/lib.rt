// The parts of a written number, from left to right: blanks, a sign and digits, the point and the
// places, the exponent. What a whole field says of them is `decimal`'s.
//
// Nobody need believe the definitions that these functions meet (specs/Segments.antt): `decimal` shows
// that together they find what its grammar says.
#![tactic(auto)]

ghost use Rattle.std.specs.Prelude.{◌≡◌, ◌+◌, ◌-◌, ◌≤◌, ◌<◌, ◌^◌, false, true, length, get_or, take, drop};
ghost use Rattle.std.proofs.Math.Seq.{slice};
ghost use Rattle.digits.specs.Segments.{Skipped, Is, digits_of, signs, pointed_of, with_sign, mantissa_of, exponent_of};

// A sign and the number that the digits behind it make.
#[derive(Clone, Copy)]
pub struct Signed {
    pub minus: bool,
    pub digits: u64,
}

// The first place from `at` on that holds no blank, or `end`.
pub fn skip(f: &[u8], at: usize, end: usize) -> usize
    requires { (at ≤ end) × (end ≤ length f.now) }
    ensures { Skipped f.now at end result }
{
    for i in at..end {
        if f[i] != b' ' {
            return i;
        }
    }
    end
}

// The number that the digits from `at` to `end` make behind those that made `acc`, eighteen in all at
// most; None where a byte is no digit.
fn run(f: &[u8], at: usize, end: usize, acc: u64) -> Option<u64>
    requires at_le_end { (at ≤ end) × (end ≤ length f.now) }
    requires end_bound { (end ≤ at + 18) × (acc < 10 ^ (at + 18 - end)) }
    ensures { result ≡ digits_of acc (slice at end f.now) }
{
    let mut n = acc;
    for &c in &f[at..end] {
        if c < b'0' || b'9' < c {
            return None;
        }
        n = n * 10 + ((c - b'0') as u64);
    }
    Some(n)
}

fn with_sign(minus: bool, digits: Option<u64>) -> Option<Signed>
    ensures { result ≡ with_sign minus digits }
{
    Some(Signed {
        minus,
        digits: digits?,
    })
}

// Where the digits begin that follow the byte at k, or begin with it: behind it where it is a sign.
fn behind(f: &[u8], k: usize) -> usize
    requires { k < length f.now }
    ensures { result ≡ k + signs (get_or f.now k 0) }
{
    if f[k] == b'-' || f[k] == b'+' {
        return k + 1;
    }
    k
}

// Behind blanks, digits up to the point, the point, and the digits up to `end`.
fn pointed(f: &[u8], from: usize, point: usize, end: usize) -> Option<u64>
    requires { (point < end) × (end ≤ length f.now) × (end ≤ 18) }
    ensures { result ≡ pointed_of f.now from point end }
{
    if point < from {
        return None;
    }
    let acc = run(f, skip(f, from, point), point, 0)?;
    if f[point] != b'.' {
        return None;
    }
    run(f, point + 1, end, acc)
}

// The mantissa of the bytes up to `end`, from the field's first byte that is no blank on: a sign or none,
// blanks behind it (document 02, No. 4), digits, the point and the places. Each byte is looked at once, by its place in the field (docs/SPEED.md).
pub fn mantissa(f: &[u8], k: usize, places: usize, end: usize) -> Option<Signed>
    requires skipped { Skipped f.now 0 (length f.now) k }
    requires k_in_bounds { (k < length f.now) × (places + 1 ≤ end) }
    requires end_in_bounds { (end ≤ length f.now) × (end ≤ 18) }
    ensures { Is 18 (mantissa_of true places (take end f.now)) result }
{
    let point = end - places - 1;
    if point < k {
        return None;
    }
    with_sign(f[k] == b'-', pointed(f, behind(f, k), point, end))
}

// A whole number from its first byte that is no blank on: a sign or none, and digits, one at least.
pub fn whole(f: &[u8], k: usize) -> Option<Signed>
    requires skipped { Skipped f.now 0 (length f.now) k }
    requires k_in_bounds { (k < length f.now) × (length f.now ≤ 18) }
    ensures { Is 18 (mantissa_of false 1 f.now) result }
{
    let n = f.len();
    let from = behind(f, k);
    if from == n {
        return None;
    }
    with_sign(f[k] == b'-', run(f, from, n, 0))
}

// `E`, a sign and two digits: the field's last four bytes.
pub fn exponent(f: &[u8], at: usize) -> Option<Signed>
    requires { at + 4 ≡ length f.now }
    ensures { Is 18 (exponent_of (drop at f.now)) result }
{
    if f[at] != b'E' {
        return None;
    }
    let c = f[at + 1];
    if c == b'-' {
        return with_sign(true, run(f, at + 2, at + 4, 0));
    }
    if c == b'+' {
        return with_sign(false, run(f, at + 2, at + 4, 0));
    }
    None
}
