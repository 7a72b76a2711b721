// Theorems about packs with a note, and about the cores that pack and read them. No code.
#![tactic(auto)]
