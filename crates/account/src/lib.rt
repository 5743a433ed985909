// From the program's input to what it prints: definitions and theorems alone.
#![tactic(auto)]
