// The C library (include/seobangyu.h): each call of the C boundary under the name that C calls it by. The calls
// themselves stand in libraries (c_walk, c_image, ..), since no crate can use what is exported; here each is
// handed on, under the very clauses that it has there.
#![tactic(auto)]

ghost use Rattle.std.specs.Prelude.{◌≡◌, length};
ghost use Rattle.c_answer.specs.Room.{answered, fits, answer_of};
ghost use Rattle.c_walk.specs.Calls.{room, begun_state, begun_answer, walked_state, walked_answer, start_in};
ghost use Rattle.lines.specs.View.{view_of};
ghost use Rattle.copies.specs.Row.{copied_of};
ghost use Rattle.lines.specs.Said.{view_as};
ghost use Rattle.copies.specs.Said.{copied_as};
ghost use Rattle.c_image.specs.Calls.{row_behind};
ghost use Rattle.samples.specs.Asked.{pattern_of, power_of};
ghost use Rattle.samples.specs.Said.{patterned_as, powered_as};
ghost use Rattle.complex_rows.specs.Parts.{parts_copied};
ghost use Rattle.c_samples.specs.Calls.{parts_behind};
ghost use Rattle.c_leader.specs.Calls.{value_room, field_value, field_answer};
ghost use Rattle.sets.specs.Set.{set_of};
ghost use Rattle.sets.specs.Said.{agreement_as};
ghost use Rattle.cards.specs.Check.{check_of, numbers_of};
ghost use Rattle.cards.specs.Said.{checked_as};
ghost use Rattle.c_card.specs.Calls.{build_says, card_behind, numbers_behind};

// A walk is begun: the fresh state of the kind, or refusal 1 and all zeros.
#[unsafe(no_mangle)]
pub extern "C" fn sbg_begin(kind: u64, state: &mut [u64], answer: &mut [u64]) -> u64
    ensures value { result ≡ answered (room state.old answer.old) }
    ensures state_after { state.new ≡ begun_state kind state.old answer.old }
    ensures answer_after { answer.new ≡ begun_answer kind state.old answer.old }
{
    c_walk::sbg_begin(kind, state, answer)
}

// The walk: the state is moved in place; a budget of 1 is a step.
#[unsafe(no_mangle)]
pub extern "C" fn sbg_walk(
    state: &mut [u64],
    bytes: &[u8],
    closed: u64,
    budget: u64,
    answer: &mut [u64],
) -> u64
    ensures value { result ≡ answered (room state.old answer.old) }
    ensures state_after { state.new ≡ walked_state closed budget bytes.now state.old answer.old }
    ensures answer_after { answer.new ≡ walked_answer closed budget bytes.now state.old answer.old }
{
    c_walk::sbg_walk(state, bytes, closed, budget, answer)
}

// The place of the next record's first byte; 0 for a fresh, bad or short state.
#[unsafe(no_mangle)]
pub extern "C" fn sbg_start(state: &[u64]) -> u64
    ensures { result ≡ start_in state.now }
{
    c_walk::sbg_start(state)
}

// The line view of an image prefix held from byte 0.
#[unsafe(no_mangle)]
pub extern "C" fn sbg_line(bytes: &[u8], line: u64, answer: &mut [u64]) -> u64
    ensures value { result ≡ answered (fits 5 answer.old) }
    ensures answer_after { answer.new ≡ answer_of (view_as (view_of bytes.now line)) answer.old }
{
    c_image::sbg_line(bytes, line, answer)
}

// The row copy; a short row is refusal 15.
#[unsafe(no_mangle)]
pub extern "C" fn sbg_row(bytes: &[u8], line: u64, row: &mut [u16], answer: &mut [u64]) -> u64
    ensures value { result ≡ answered (fits 5 answer.old) }
    ensures row_after { row.new ≡ row_behind line bytes.now row.old answer.old }
    ensures answer_after { answer.new ≡ answer_of (copied_as (copied_of bytes.now line (length row.old))) answer.old }
{
    c_image::sbg_row(bytes, line, row, answer)
}

// One sample of a line, from 0: a count, or two patterns.
#[unsafe(no_mangle)]
pub extern "C" fn sbg_sample(bytes: &[u8], line: u64, index: u64, answer: &mut [u64]) -> u64
    ensures value { result ≡ answered (fits 5 answer.old) }
    ensures answer_after { answer.new ≡ answer_of (patterned_as (pattern_of bytes.now line index)) answer.old }
{
    c_samples::sbg_sample(bytes, line, index, answer)
}

// Its power, as a pattern.
#[unsafe(no_mangle)]
pub extern "C" fn sbg_power(bytes: &[u8], line: u64, index: u64, answer: &mut [u64]) -> u64
    ensures value { result ≡ answered (fits 5 answer.old) }
    ensures answer_after { answer.new ≡ answer_of (powered_as (power_of bytes.now line index)) answer.old }
{
    c_samples::sbg_power(bytes, line, index, answer)
}

// The complex row copy: two patterns a sample. A row that is too short is refusal 15.
#[unsafe(no_mangle)]
pub extern "C" fn sbg_complex_row(
    bytes: &[u8],
    line: u64,
    row: &mut [u32],
    answer: &mut [u64],
) -> u64
    ensures value { result ≡ answered (fits 5 answer.old) }
    ensures row_after { row.new ≡ parts_behind line bytes.now row.old answer.old }
    ensures answer_after { answer.new ≡ answer_of (copied_as (parts_copied bytes.now line (length row.old))) answer.old }
{
    c_samples::sbg_complex_row(bytes, line, row, answer)
}

// A listed field: a value's number and exponent go to the value array.
#[unsafe(no_mangle)]
pub extern "C" fn sbg_field(bytes: &[u8], number: u64, value: &mut [i64], answer: &mut [u64]) -> u64
    ensures value { result ≡ answered (value_room value.old answer.old) }
    ensures value_after { value.new ≡ field_value number bytes.now value.old answer.old }
    ensures answer_after { answer.new ≡ field_answer number bytes.now value.old answer.old }
{
    c_leader::sbg_field(bytes, number, value, answer)
}

// The set check over a closed directory and a list of counts in pointer order.
#[unsafe(no_mangle)]
pub extern "C" fn sbg_set(bytes: &[u8], counts: &[u64], answer: &mut [u64]) -> u64
    ensures value { result ≡ answered (fits 5 answer.old) }
    ensures answer_after { answer.new ≡ answer_of (agreement_as (set_of bytes.now counts.now)) answer.old }
{
    c_set::sbg_set(bytes, counts, answer)
}

// Builds a card of a whole image and its whole leader; a short buffer is refusal 37.
#[unsafe(no_mangle)]
pub extern "C" fn sbg_card_build(
    image: &[u8],
    leader: &[u8],
    card: &mut [u8],
    answer: &mut [u64],
) -> u64
    ensures value { result ≡ answered (fits 5 answer.old) }
    ensures card_after { card.new ≡ card_behind image.now leader.now card.old answer.old }
    ensures answer_after { answer.new ≡ answer_of (build_says image.now leader.now card.old) answer.old }
{
    c_card::sbg_card_build(image, leader, card, answer)
}

// Judges the bytes as a card.
#[unsafe(no_mangle)]
pub extern "C" fn sbg_card(card: &[u8], answer: &mut [u64]) -> u64
    ensures value { result ≡ answered (fits 5 answer.old) }
    ensures answer_after { answer.new ≡ answer_of (checked_as (check_of card.now)) answer.old }
{
    c_card::sbg_card(card, answer)
}

// The numbers of a card; a short list is refusal 37.
#[unsafe(no_mangle)]
pub extern "C" fn sbg_card_numbers(card: &[u8], numbers: &mut [u64], answer: &mut [u64]) -> u64
    ensures value { result ≡ answered (fits 5 answer.old) }
    ensures numbers_after { numbers.new ≡ numbers_behind card.now numbers.old answer.old }
    ensures answer_after { answer.new ≡ answer_of (checked_as (numbers_of card.now (length numbers.old))) answer.old }
{
    c_card::sbg_card_numbers(card, numbers, answer)
}
