// Demand 2: theorems about packing and unpacking. Definitions in specs/, proofs in proofs/; no code.
#![tactic(auto)]
