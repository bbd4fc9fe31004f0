// Theorems only: what a file is (specs/Rules.antt), and that the reader keeps its promises about it.
// The crate has no function of its own; this one says so.
#![tactic(auto)]

pub fn theorems_only() -> bool {
    true
}
