// Demand 3 of the month ledger, and refusal 22: definitions and theorems alone.
#![tactic(auto)]
