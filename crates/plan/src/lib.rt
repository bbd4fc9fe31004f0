// What a file's first record promises: how many records there are, and of record k (from 0) what is
// due: its ordinal, codes, length and start in the file. All of it is over (kind, plan, k) and knows
// nothing of bytes (document 01, "First records and what they promise"; 000).
#![tactic(auto)]

ghost use Rattle.std.specs.Prelude.{◌≡◌, ◌^◌, ◌<◌, ◌≤◌, sum};
ghost use Rattle.plan.specs.Tables.{slot, facility, slot_of, codes, other_codes, sort, sort_of};
ghost use Rattle.plan.specs.Plan.{zero_plan, run_counts, run_lengths, first_length, Small, Spotted, Placed};
ghost use Rattle.plan.specs.Plan.{total_of, spot_from, spot_of, first_codes, line_codes, codes_of, due_of};

// The four kinds.
// kept: a state may be handed in with any numbers, and `walk_of` and `sbg_walk`'s contract speak of each kind, known or not.
pub const VOLUME: u64 = 1;

pub const LEADER: u64 = 2;

pub const IMAGE: u64 = 3;

pub const TRAILER: u64 = 4;

// The image's sorts by number: whole counts of two bytes, and complex samples of two floats (document 02,
// No. 2).
// kept: a state may be handed in with any sort; `plan_good` and `sbg_walk`'s contract speak of those that there are not.
pub const COUNTS: u64 = 0;

pub const COMPLEX: u64 = 1;

// How many slots and facility pairs of the leader the plan has a count and a length for: slots 1, 2, 3,
// 4, 5, 7 and the eleven facility pairs.
pub const ROWS: usize = 17;

// The plan's numbers: the pointer count (volume); count and length of slots 1, 2, 3, 4, 5, 7 and of
// the eleven facility pairs (leader); lines n, record length L, pixels w, data bytes d, suffix s and
// sort (image). Numbers that a kind does not use are 0.
#[derive(Clone, Copy)]
pub struct Plan {
    pub pointers: u64,
    pub counts: [u64; ROWS],
    pub lengths: [u64; ROWS],
    pub n: u64,
    pub l: u64,
    pub w: u64,
    pub d: u64,
    pub s: u64,
    pub sort: u64,
}

// Where record k stands: in the first record (run 0) or in which run of equal records, how long it
// is, and where it starts in the file.
#[derive(Clone, Copy)]
pub struct Spot {
    pub run: u64,
    pub length: u64,
    pub start: u64,
}

// The record that is due: its ordinal, which is its sequence number, its run (0 is the first record),
// its codes, its length and where it starts in the file.
#[derive(Clone, Copy)]
pub struct Due {
    pub ordinal: u64,
    pub run: u64,
    pub codes: Codes,
    pub length: u64,
    pub start: u64,
}

// An image's sample sort: its text at 429, the bytes a group, the least bytes that go ahead of the
// pixels, and its lines' second code byte.
#[derive(Clone, Copy)]
pub struct Sort {
    pub text: [u8; 4],
    pub group: u64,
    pub ahead: u64,
    pub code: u64,
}

// The four code bytes of a record; the fourth may be any byte where it is free.
#[derive(Clone, Copy)]
pub struct Codes {
    pub one: u64,
    pub two: u64,
    pub three: u64,
    pub four: u64,
    pub free: bool,
}

// A slot of the leader that is admitted, or a facility pair: its records' second code byte, whether
// the fourth is free, and the ranges of its count and of its length.
#[derive(Clone, Copy)]
pub struct Slot {
    pub code: u64,
    pub free: bool,
    pub least: u64,
    pub most: u64,
    pub shortest: u64,
    pub longest: u64,
}

// The runs of equal records behind the first record.
#[derive(Clone, Copy)]
pub struct Runs {
    pub counts: [u64; ROWS],
    pub lengths: [u64; ROWS],
}

// A sort of the image: its text, bytes a group, bytes ahead of the pixels, and its lines' second code byte.
fn sort_row(text: [u8; 4], group: u64, ahead: u64, code: u64) -> Sort
    ensures { result ≡ sort text group ahead code }
{
    Sort {
        text,
        group,
        ahead,
        code,
    }
}

// The image's sorts by number, a row each; behind the last one nothing is allowed.
#[tactic(auto, unfolding(crate::specs::Tables::sort_of))]
pub fn sort_at(sort: u64) -> Sort
    ensures { result ≡ sort_of sort }
{
    match sort {
        COUNTS => sort_row([b'I', b'U', b'2', b' '], 2, 192, 11),
        COMPLEX => sort_row([b'C', b'*', b'8', b' '], 8, 412, 10),
        _ => sort_row([0u8; 4], 0, 0, 0),
    }
}

// A slot of the leader: its code, and the ranges of its count and of its length.
fn slot_row(code: u64, least: u64, most: u64, shortest: u64, longest: u64) -> Slot
    ensures { result ≡ slot code least most shortest longest }
{
    Slot {
        code,
        free: false,
        least,
        most,
        shortest,
        longest,
    }
}

// Every facility pair has the same rules.
fn facility() -> Slot
    ensures { result ≡ facility }
{
    Slot {
        code: 200,
        free: true,
        least: 0,
        most: 1,
        shortest: 12,
        longest: 99999999,
    }
}

// The rules of row i of the plan, from 0: slots 1, 2, 3, 4, 5, 7, then the eleven facility pairs; past
// the last row nothing is allowed. It is no array, since one of structs is built anew at each look.
#[tactic(auto, unfolding(crate::specs::Tables::slot_of))]
pub fn slot_at(i: u64) -> Slot
    ensures { result ≡ slot_of i }
{
    match i {
        0 => slot_row(10, 1, 1, 4096, 4096),
        1 => slot_row(20, 0, 1, 1620, 1620),
        2 => slot_row(30, 0, 9, 12, 999999),
        3 => slot_row(40, 0, 9, 12, 999999),
        4 => slot_row(50, 0, 9, 12, 999999),
        5 => slot_row(60, 0, 9, 12, 999999),
        6..=16 => facility(),
        _ => slot_row(0, 0, 0, 0, 0),
    }
}

// Four code bytes, none of them free.
fn four_codes(one: u64, two: u64, three: u64, four: u64) -> Codes
    ensures { result ≡ codes one two three four }
{
    Codes {
        one,
        two,
        three,
        four,
        free: false,
    }
}

// The descriptors of the four kinds, then a directory's pointers and its text.
#[tactic(auto, unfolding(crate::specs::Tables::other_codes))]
fn other_codes(i: u64) -> Codes
    ensures { result ≡ other_codes i }
{
    match i {
        0 => four_codes(192, 192, 18, 18),
        1 => four_codes(11, 192, 18, 18),
        2 => four_codes(50, 192, 18, 18),
        3 => four_codes(63, 192, 18, 18),
        4 => four_codes(219, 192, 18, 18),
        5 => four_codes(18, 192, 18, 18),
        _ => four_codes(0, 0, 0, 0),
    }
}

// The code bytes of a first record.
#[tactic(auto, unfolding(crate::specs::Plan::first_codes))]
pub fn first_codes(kind: u64) -> Codes
    ensures { result ≡ first_codes kind }
{
    other_codes(kind.saturating_sub(1))
}

// The code bytes of a line, by the image's sort.
pub fn line_codes(sort: u64) -> Codes
    ensures { result ≡ line_codes sort }
{
    four_codes(50, sort_at(sort).code, 18, 20)
}

// The code bytes of a record of a run; run 0 is the first record.
#[tactic(auto, unfolding(crate::specs::Plan::codes_of))]
fn codes_of(kind: u64, p: Plan, run: u64) -> Codes
    ensures { result ≡ codes_of kind p run }
{
    if run == 0 {
        return first_codes(kind);
    }
    match kind {
        LEADER => {
            let row = slot_at(run - 1);
            Codes {
                one: 18,
                two: row.code,
                three: 18,
                four: 20,
                free: row.free,
            }
        }
        VOLUME => other_codes(3 + run.min(3)),
        _ => line_codes(p.sort),
    }
}

// All zeros: the plan of a state that has passed nothing.
pub fn zero() -> Plan
    ensures { result ≡ zero_plan }
{
    Plan {
        pointers: 0,
        counts: [0u64; ROWS],
        lengths: [0u64; ROWS],
        n: 0,
        l: 0,
        w: 0,
        d: 0,
        s: 0,
        sort: 0,
    }
}

#[tactic(auto, unfolding(crate::specs::Plan::first_length))]
pub fn first_length(kind: u64) -> u64
    ensures { result ≡ first_length kind }
{
    if kind == VOLUME { 360 } else { 720 }
}

// The runs behind the first record: pointers and one text; the leader's slots and facility pairs;
// the image's lines; none for a trailer.
#[tactic(auto, unfolding(crate::specs::Plan::run_counts, crate::specs::Plan::run_lengths))]
pub fn runs_of(kind: u64, p: Plan) -> Runs
    ensures { (result.counts ≡ run_counts kind p) × (result.lengths ≡ run_lengths kind p) }
{
    let mut counts = [0u64; ROWS];
    let mut lengths = [0u64; ROWS];
    match kind {
        VOLUME => {
            counts[0] = p.pointers;
            counts[1] = 1;
            lengths[0] = 360;
            lengths[1] = 360;
            Runs { counts, lengths }
        }
        LEADER => {
            let counts = p.counts;
            let lengths = p.lengths;
            Runs { counts, lengths }
        }
        IMAGE => {
            counts[0] = p.n;
            lengths[0] = p.l;
            Runs { counts, lengths }
        }
        _ => Runs { counts, lengths },
    }
}

fn sum(counts: [u64; ROWS]) -> u64
    requires { sum counts < 2 ^ 64 }
    ensures { result ≡ sum counts }
{
    counts.iter().sum()
}

// How many records are planned, the first among them.
pub fn total(kind: u64, p: Plan) -> u64
    requires { Small (run_counts kind p) (run_lengths kind p) }
    ensures { (result ≡ total_of kind p) × (result ≤ 17000001) }
{
    let counts = runs_of(kind, p).counts;
    1 + sum(counts)
}

// Record k of the runs, the first of which starts at `at`.
fn find(runs: Runs, k: u64, at: u64) -> Spot
    requires small { Small runs.counts runs.lengths }
    requires at_bound { at ≤ 720 }
    ensures value { result ≡ spot_from 1 runs.counts runs.lengths k at }
    ensures spotted { Spotted result }
{
    let mut left = k;
    let mut start = at;
    for i in 0..ROWS {
        let count = runs.counts[i];
        let length = runs.lengths[i];
        if left < count {
            return Spot {
                run: i as u64 + 1,
                length,
                start: start + left * length,
            };
        }
        left -= count;
        start += count * length;
    }
    Spot {
        run: ROWS as u64 + 1,
        length: 0,
        start,
    }
}

// Where record k stands; behind the last one, the place where the file ends.
#[tactic(auto, unfolding(crate::specs::Plan::spot_of))]
fn spot_of(kind: u64, p: Plan, k: u64) -> Spot
    requires { Small (run_counts kind p) (run_lengths kind p) }
    ensures value { result ≡ spot_of kind p k }
    ensures spotted { Spotted result }
{
    let first = first_length(kind);
    if k == 0 {
        return Spot {
            run: 0,
            length: first,
            start: 0,
        };
    }
    find(runs_of(kind, p), k - 1, first)
}

// The record that is due behind k others: behind the last one, its start is the place where the file
// ends.
pub fn due_of(kind: u64, p: Plan, k: u64) -> Due
    requires small { Small (run_counts kind p) (run_lengths kind p) }
    requires k_bound { k ≤ total_of kind p }
    ensures value { result ≡ due_of kind p k }
    ensures placed { Placed result }
{
    let s = spot_of(kind, p, k);
    Due {
        ordinal: k + 1,
        run: s.run,
        codes: codes_of(kind, p, s.run),
        length: s.length,
        start: s.start,
    }
}
