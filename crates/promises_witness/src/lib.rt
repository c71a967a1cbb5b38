// Computed examples: on a small device with encoded headers the premises of what is promised hold, so that none of it is empty. This crate
// holds statements (specs/) and their proofs (proofs/) only; it has no code that runs.
#![tactic(auto)]
