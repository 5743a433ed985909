// What `desk` prints, from the bytes of its input to those of its output, over the contracts of the crates below:
// definitions and theorems alone.
#![tactic(auto)]
