// The pool's mount, adopt and release as functions on states, and what is promised of them: `new`, `adopt_slots`, `install` and
// `release_slot` of src/env/opfs/pool.rs. This crate holds definitions (specs/) and theorems (proofs/) only; it has no code that runs.
// The crates that port the Rust give its `Kit` the real paths, headers and device.
#![tactic(auto)]
