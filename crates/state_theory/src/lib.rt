// Theorems about a builder's state: read as the core's, tested by 21, and given back after an operation. Definitions in specs/, proofs in
// proofs/; no code.
#![tactic(auto)]
