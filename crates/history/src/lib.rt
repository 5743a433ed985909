// Demand 3's theory over any ledger: definitions and theorems alone.
#![tactic(auto)]
