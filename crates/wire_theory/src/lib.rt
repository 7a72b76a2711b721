// Laws of bits, codes and fields. Definitions in specs/, proofs in proofs/; no code.
#![tactic(auto)]
