// Nothing is tied by eye: the contracts of the public face, of the flat call under it and of every exported function are, by computation,
// the statements that the promises speak of; so that two ends which the code's own contracts allow are the same. This crate holds
// statements (specs/) and their proofs (proofs/) only; it has no code that runs.
#![tactic(auto)]
