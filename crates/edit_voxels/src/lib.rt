// Demand 3 as one theorem, with what an edit of the extensions leaves of every voxel. There is no code here: the
// theorem `demand_three` in proofs/Theorems.antt speaks of the definitions that `edit` and `voxel` promise.
#![tactic(auto)]
