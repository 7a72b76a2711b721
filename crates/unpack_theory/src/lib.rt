// Theorems about the run of an unpacking. Definitions in specs/, proofs in proofs/; no code.
#![tactic(auto)]
