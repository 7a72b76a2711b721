// Theorems about the packer's choice: gaps, never stuck, canonical operations, full and shortened loops, vertices with one fan. Definitions
// in specs/, proofs in proofs/; no code.
#![tactic(auto)]
