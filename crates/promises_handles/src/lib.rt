// What becomes of handles under the public calls: which calls leave a live handle live, which make it stale, and that a stale one stays so.
// This crate holds statements (specs/) and their proofs (proofs/) only; it has no code that runs.
#![tactic(auto)]
