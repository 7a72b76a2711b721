// Theorems about triangle lists: fans, what the tests 1 to 7 say, and corner chains. Definitions in specs/, proofs in proofs/; no code.
#![tactic(auto)]
