// What the service promises, and demand 3. Definitions in specs/, proofs in proofs/; no code.
#![tactic(auto)]
