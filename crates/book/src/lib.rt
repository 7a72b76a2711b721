// Theorems about the loops and the builder's book: what holds of it after any list of calls. Definitions in specs/, proofs in proofs/; no
// code.
#![tactic(auto)]
