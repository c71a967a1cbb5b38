// What is promised of the pool, of the public call `pool::call`: specs/Promises.antt is the page to read. This crate holds statements
// (specs/) and their proofs (proofs/) only; it has no code that runs.
#![tactic(auto)]
