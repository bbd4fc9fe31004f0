// The C boundary (include/seobangyu.h), cards: build, check, numbers. A call assumes nothing of what it is
// handed: an answer array that is too short is answered with 0, and then nothing is written.
#![tactic(auto)]

ghost use Rattle.std.specs.Prelude.{◌≡◌, length};
ghost use Rattle.cards.specs.Check.{check_of, numbers_of};
ghost use Rattle.cards.specs.Said.{checked_as};
ghost use Rattle.card_build.specs.Said.{built_as};
ghost use Rattle.c_answer.specs.Reply.{reply_of};
ghost use Rattle.c_answer.specs.Room.{fits, answered, answer_of};
ghost use Rattle.c_card.specs.Calls.{build_says, card_behind, numbers_behind};

use c_answer::Reply;
use card_build::Built;
use cards::Checked;

// What the builder answers.
fn built_reply(x: Built) -> Reply
    ensures { result ≡ reply_of (built_as x) 0 }
{
    match x {
        Ok(n) => c_answer::brief(10, n, 0),
        Err(r) => c_answer::refusal(r, 0),
    }
}

// What the reader answers.
fn card_reply(x: Checked) -> Reply
    ensures { result ≡ reply_of (checked_as x) 0 }
{
    match x {
        Ok(card) => Reply {
            tag: 11,
            a: card.lines,
            b: card.entries,
            c: 0,
            count: 0,
        },
        Err(r) => c_answer::refusal(r, 0),
    }
}

// Builds a card of a whole image and its whole leader; a short buffer is refusal 37.
pub fn sbg_card_build(image: &[u8], leader: &[u8], card: &mut [u8], answer: &mut [u64]) -> u64
    ensures value { result ≡ answered (fits 5 answer.old) }
    ensures card_after { card.new ≡ card_behind image.now leader.now card.old answer.old }
    ensures answer_after { answer.new ≡ answer_of (build_says image.now leader.now card.old) answer.old }
{
    c_answer::answer_with(
        answer,
        &mut || built_reply(card_build::build(image, leader, card)),
    )
}

// Judges the bytes as a card.
pub fn sbg_card(card: &[u8], answer: &mut [u64]) -> u64
    ensures value { result ≡ answered (fits 5 answer.old) }
    ensures answer_after { answer.new ≡ answer_of (checked_as (check_of card.now)) answer.old }
{
    c_answer::answer_with(answer, &mut || card_reply(cards::check(card)))
}

// The numbers of a card; a short list is refusal 37.
pub fn sbg_card_numbers(card: &[u8], numbers: &mut [u64], answer: &mut [u64]) -> u64
    ensures value { result ≡ answered (fits 5 answer.old) }
    ensures numbers_after { numbers.new ≡ numbers_behind card.now numbers.old answer.old }
    ensures answer_after { answer.new ≡ answer_of (checked_as (numbers_of card.now (length numbers.old))) answer.old }
{
    c_answer::answer_with(answer, &mut || card_reply(cards::numbers(card, numbers)))
}
