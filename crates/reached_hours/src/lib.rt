// Whether an hour reached a threshold, beside the hour's own rate, over the contracts of the crates below: theorems
// alone.
#![tactic(auto)]
