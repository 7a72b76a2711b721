// Theorems about the memory of the furnace's own reader: bytes that stand for the numbers of the plain memory. Definitions in specs/,
// proofs in proofs/; no code.
#![tactic(auto)]
