// Laws of tests and of counts, said once for all theorems. Proofs in proofs/; no code.
#![tactic(auto)]
