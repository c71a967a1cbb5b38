// What the customer would ask next of the public calls: what a mount leaves on the card, what a refusal leaves, what is read after a write
// and found after a sync. This crate holds statements (specs/) and theorems (proofs/) only; it has no code that runs.
#![tactic(auto)]
