// Theorems about grid positions and volumes. No code.
#![tactic(auto)]
