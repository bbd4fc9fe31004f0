// Theorems only: who gets which refusal, at which record and place (specs/Refusals.antt), in both directions.
// The crate has no function of its own; this one says so.
#![tactic(auto)]

pub fn theorems_only() -> bool {
    true
}
