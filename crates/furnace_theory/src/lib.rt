// Theorems about the furnace's own reader: its run, and its answers beside the service's. No code.
#![tactic(auto)]
