// Theorems only: a card has one reading, which the reader gives; who gets which refusal; what was built reads back.
// The crate has no function of its own; this one says so.
#![tactic(auto)]

pub fn theorems_only() -> bool {
    true
}
