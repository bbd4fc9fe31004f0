// What the page shows of an image that is held from byte 0 (document 01, "Lines, rows, sets"): the data
// pixels of one line as a part of the caller's bytes. Earlier lines are not read: a line's place follows
// from the plan.
#![tactic(auto)]

ghost use Rattle.std.specs.Prelude.{◌≡◌, ◌+◌, ◌*◌, ◌≤◌, length, Ok};
ghost use Rattle.plan.specs.Plan.{image, first_codes, due_of, Placed};
ghost use Rattle.headers.specs.Header.{header_of};
ghost use Rattle.lines.specs.declared.Unshown.TheVariants.{Refused};
ghost use Rattle.lines.specs.View.{pixels_from, shown_of, found_in, line_at, line_of, sorted_of, view_of, pixels_of, Lined, Leads};

use plan::{Due, Plan};
use verdicts::Verdict;
use words::Refusal;

// What a line view shows: the place of its first data pixel in the file, the data count and the left
// fill.
#[derive(Clone, Copy)]
pub struct Shown {
    pub start: u64,
    pub count: u64,
    pub left: u64,
}

// Why nothing is shown: the bytes still missing; or the refusal.
#[derive(Clone, Copy)]
pub enum Unshown {
    Wait(u64),
    Refused(Refusal),
}

// What a line view answers.
pub type View = Result<Shown, Unshown>;

// A view, and the sort of the samples that it shows; 0 where the first record has not passed.
#[derive(Clone, Copy)]
pub struct Sorted {
    pub sort: u64,
    pub view: View,
}

// What is found in line k's record, which is due there and has room for a line's numbers: header (3, 4,
// 5), then body (10). Where nothing is wrong, bytes that are there are not asked for one by one.
fn found(p: Plan, k: u64, d: Due, r: &[u8]) -> Verdict
    requires { (d.run ≡ 1) × (32 ≤ length r.now) }
    ensures { result ≡ found_in p k d r.now }
{
    let fine = words::both(
        headers::header_there(d.ordinal, d.codes, d.length, r),
        image::line_there(p.w, k, r),
    );
    if fine {
        return Ok(());
    }
    headers::header(d.ordinal, d.codes, d.length, r)?;
    image::line(p.w, k, r)
}

// Pixels start L - s - d bytes into a line's record, which may be more than the 192 of its front.
fn pixels_from(p: Plan) -> u64
    requires { p.s + p.d ≤ p.l }
    ensures { (result ≡ pixels_from p) × (result ≤ p.l) }
{
    p.l - p.s - p.d
}

// What is shown of a line's record that starts there: the data pixels skip the left fill.
fn shown_at(p: Plan, start: u64, r: &[u8]) -> Shown
    requires start_bound { (start ≤ 20000000000000) × (p.s + p.d ≤ p.l) × (p.l ≤ 99999999) }
    requires in_bounds { 32 ≤ length r.now }
    ensures { Ok result ≡ shown_of p start r.now }
{
    let left = words::four_there(r, words::place(21));
    let count = words::four_there(r, words::place(25));
    let group = plan::sort_at(p.sort).group;
    Shown {
        start: start + pixels_from(p) + group * left,
        count,
        left,
    }
}

// Line k, whose record is due there: wait for the bytes still missing to its record's end, then judge
// that record alone.
fn line_at(p: Plan, k: u64, d: Due, bytes: &[u8]) -> View
    requires lined { Lined p × Placed d × (p.s + p.d ≤ p.l) }
    requires run_value { (d.run ≡ 1) × (32 ≤ d.length) }
    ensures { result ≡ line_at p k d bytes.now }
{
    let end = d.start + d.length;
    let len = bytes.len() as u64;
    if len < end {
        return Err(Unshown::Wait(end - len));
    }
    let r = &bytes[d.start as usize..end as usize];
    if let Err(x) = found(p, k, d, r) {
        return Err(Unshown::Refused(Refusal {
            number: x.number,
            record: d.ordinal,
            place: d.start + x.place,
        }));
    }
    Ok(shown_at(p, d.start, r))
}

// Line k's record as it is due: all lines are of one run, so it is not looked for among the runs.
fn line_due(p: Plan, k: u64) -> Due
    requires { Lined p × (1 ≤ k) × (k ≤ p.n) }
    ensures value { result ≡ due_of image p k }
    ensures placed { Placed result × (result.run ≡ 1) × (32 ≤ result.length) }
{
    Due {
        ordinal: k + 1,
        run: 1,
        codes: plan::line_codes(p.sort),
        length: p.l,
        start: plan::first_length(plan::IMAGE) + (k - 1) * p.l,
    }
}

// Line k of an image with that plan, or 13.
fn line(p: Plan, k: u64, bytes: &[u8]) -> View
    requires { Lined p }
    ensures { result ≡ line_of p k bytes.now }
{
    if words::within(1, k, p.n) {
        return line_at(p, k, line_due(p, k), bytes);
    }
    Err(Unshown::Refused(words::bare(13)))
}

// The header of the first record, on bytes that have come.
fn first_header(b: &[u8]) -> Verdict
    requires { 12 ≤ length b.now }
    ensures { result ≡ header_of 1 (first_codes image) 720 b.now }
{
    let codes = plan::first_codes(plan::IMAGE);
    if headers::header_there(1, codes, 720, b) {
        return Ok(());
    }
    headers::header(1, codes, 720, b)
}

// A refusal of the first record, which starts at 0.
fn refused(x: Refusal) -> Unshown
    ensures { result ≡ Refused (record { number = x.number; «record» = 1; place = x.place }) }
{
    Unshown::Refused(Refusal { record: 1, ..x })
}

// The plan that the first record names, the record read as in the walk, open; or its own wait or refusal. The
// walk itself is not called: its state would be moved about for one record (docs/SPEED.md).
fn first_plan(bytes: &[u8]) -> Result<Plan, Unshown>
    ensures { Leads bytes.now result }
{
    let len = bytes.len() as u64;
    if len < 12 {
        return Err(Unshown::Wait(12 - len));
    }
    first_header(bytes).map_err(refused)?;
    if len < 720 {
        return Err(Unshown::Wait(720 - len));
    }
    bodies::of_image(&bytes[..720]).map_err(refused)
}

// The line view with the sort, asked of an image prefix held from byte 0: the first record; then line k.
// Asking for the last line costs no more than asking for the first.
pub fn sorted_view(bytes: &[u8], k: u64) -> Sorted
    ensures { result ≡ sorted_of bytes.now k }
{
    match first_plan(bytes) {
        Ok(p) => Sorted {
            sort: p.sort,
            view: line(p, k, bytes),
        },
        Err(x) => Sorted {
            sort: 0,
            view: Err(x),
        },
    }
}

// The line view.
pub fn line_view(bytes: &[u8], k: u64) -> View
    ensures { result ≡ view_of bytes.now k }
{
    sorted_view(bytes, k).view
}

// The line's data pixels, as the part of the caller's bytes that they are; empty where nothing is
// shown.
pub fn pixels(bytes: &[u8], k: u64) -> &[u8]
    ensures { result.now ≡ pixels_of bytes.now k }
{
    let x = sorted_view(bytes, k);
    let group = plan::sort_at(x.sort).group;
    let Ok(shown) = x.view else {
        return &bytes[0..0];
    };
    let from = shown.start as usize;
    let to = (shown.start + group * shown.count) as usize;
    &bytes[from..to]
}
