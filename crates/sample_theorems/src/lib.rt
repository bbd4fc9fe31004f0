// Theorems only: each sample, power and complex row is the one that the rules name; who gets which refusal; more
// bytes change none of it. The crate has no function of its own; this one says so.
#![tactic(auto)]

pub fn theorems_only() -> bool {
    true
}
