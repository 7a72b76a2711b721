// Theorems about packing: the choice of a place in the memory, and the run. Definitions in specs/, proofs in proofs/; no code.
#![tactic(auto)]
