// Theorems only: what the calls promise together.
#![tactic(auto)]
