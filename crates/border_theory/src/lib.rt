// Theorems about loops as links: kept in a plain memory, decided and altered there, and as lent records. Definitions in specs/, proofs in
// proofs/; no code.
#![tactic(auto)]
