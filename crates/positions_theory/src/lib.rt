// Theorems about the cores of packing and unpacking with positions. No code.
#![tactic(auto)]
