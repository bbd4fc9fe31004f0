// One sample of a line (request No. 2): a whole count, or two floats, real then imaginary; its patterns, and
// its power. Asked of what the line view shows: the view's own wait or refusal comes first.
#![tactic(auto)]

ghost use Rattle.std.specs.Prelude.{◌≡◌, ◌+◌, ◌*◌, ◌≤◌, length};
ghost use Rattle.samples.specs.Samples.{is_complex, group_of, clipped, pattern_at, stands_at, patterned_by, floats, sampled_by, powered_by};
ghost use Rattle.samples.specs.Asked.{pattern_of, sample_of, power_of};

use lines::{Unshown, View};

// The number of the complex sort; 0 is counts.
pub const COMPLEX: u64 = 1;

// One sample: a whole count, or two parts, real then imaginary.
#[derive(Clone, Copy)]
pub enum Sample<T> {
    Count(u16),
    Complex(T, T),
}

// The patterns of a complex sample's parts. A float cannot keep a NaN's bits; these are kept whatever they are.
#[derive(Clone, Copy)]
pub struct Pattern {
    pub re: u32,
    pub im: u32,
}

// What stands at a sample's place, bits kept; or the view's own wait or refusal, or 36.
pub type Patterned = Result<Sample<u32>, Unshown>;

// What the sample reader answers: a whole count, or two floats; or what a `Patterned` has instead.
pub type Sampled = Result<Sample<f32>, Unshown>;

// What is said of a sample's power: its pattern; or the view's own wait or refusal, 23, 36 or 24.
pub type Powered = Result<u32, Unshown>;

// Samples of this sort are complex.
pub fn is_complex(sort: u64) -> bool
    ensures { result ≡ is_complex sort }
{
    sort == COMPLEX
}

// The place of a sample, or the end of the bytes where it lies behind them: no sum wraps, whatever is handed in.
fn place_of(len: u64, start: u64, sort: u64, index: u64) -> u64
    ensures { (result ≡ clipped len (start + group_of sort * index)) × (result ≤ len) }
{
    let group = if is_complex(sort) { 8 } else { 2 };
    start.saturating_add(index.saturating_mul(group)).min(len)
}

// The two patterns that stand there, high byte first.
fn patterns_there(bytes: &[u8], at: usize) -> Pattern
    requires { at ≤ length bytes.now }
    ensures { result ≡ pattern_at bytes.now at }
{
    let re = words::four(bytes, at);
    let im = words::four(bytes, at + 4);
    Pattern {
        re: re as u32,
        im: im as u32,
    }
}

// What stands there, by the sort: the one reader of both.
fn stands_at(bytes: &[u8], sort: u64, at: usize) -> Sample<u32>
    requires { at ≤ length bytes.now }
    ensures { result ≡ stands_at sort bytes.now at }
{
    if is_complex(sort) {
        let p = patterns_there(bytes, at);
        return Sample::Complex(p.re, p.im);
    }
    let n = words::two(bytes, at);
    Sample::Count(n as u16)
}

// Sample `index`, from 0, of what the view shows, bits kept; 36 where the line has no such data pixel.
pub fn pattern_in(bytes: &[u8], v: View, sort: u64, index: u64) -> Patterned
    ensures { result ≡ patterned_by v sort bytes.now index }
{
    let shown = v?;
    if index < shown.count {
        let at = place_of(bytes.len() as u64, shown.start, sort, index);
        return Ok(stands_at(bytes, sort, at as usize));
    }
    Err(Unshown::Refused(words::bare(36)))
}

// The floats of what stands there.
fn floats_of(x: Sample<u32>) -> Sample<f32>
    ensures { result ≡ floats x }
{
    match x {
        Sample::Count(n) => Sample::Count(n),
        Sample::Complex(re, im) => Sample::Complex(floats::float_of(re), floats::float_of(im)),
    }
}

// Sample `index`, from 0, of what the view shows: a count, or two floats.
pub fn sample_in(bytes: &[u8], v: View, sort: u64, index: u64) -> Sampled
    ensures { result ≡ sampled_by v sort bytes.now index }
{
    pattern_in(bytes, v, sort, index).map(floats_of)
}

// The power of sample `index`: 23 for counts, then 36, then 24.
pub fn power_in(bytes: &[u8], v: View, sort: u64, index: u64) -> Powered
    ensures { result ≡ powered_by v sort bytes.now index }
{
    let shown = v?;
    if !is_complex(sort) {
        return Err(Unshown::Refused(words::bare(23)));
    }
    if index >= shown.count {
        return Err(Unshown::Refused(words::bare(36)));
    }
    let at = place_of(bytes.len() as u64, shown.start, sort, index);
    let p = patterns_there(bytes, at as usize);
    floats::power_of(p.re, p.im).ok_or(Unshown::Refused(words::bare(24)))
}

// Sample `index`, from 0, of line k of an image prefix held from byte 0, bits kept: the line's own wait or
// refusal, then 36.
pub fn pattern_at(bytes: &[u8], k: u64, index: u64) -> Patterned
    ensures { result ≡ pattern_of bytes.now k index }
{
    let x = lines::sorted_view(bytes, k);
    pattern_in(bytes, x.view, x.sort, index)
}

// The same sample, as a count or two floats: the one reader of both sorts.
pub fn sample_at(bytes: &[u8], k: u64, index: u64) -> Sampled
    ensures { result ≡ sample_of bytes.now k index }
{
    let x = lines::sorted_view(bytes, k);
    sample_in(bytes, x.view, x.sort, index)
}

// Its power: the line's own, then 23 for counts, 36, 24.
pub fn power_at(bytes: &[u8], k: u64, index: u64) -> Powered
    ensures { result ≡ power_of bytes.now k index }
{
    let x = lines::sorted_view(bytes, k);
    power_in(bytes, x.view, x.sort, index)
}
