// What is promised of a mount and an adoption: demand 3 about the real paths, headers and device, over the inner calls that crate mount's
// contracts cite. Crate promises says it of the public call. This crate holds statements (specs/) and their proofs (proofs/) only; it has
// no code that runs.
#![tactic(auto)]
