// Theorems only: concrete sticks for which the premises of the demands are met, or are seen to be needed.
#![tactic(auto)]
