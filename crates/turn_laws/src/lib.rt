// What a turned file is (02-change-requests.md, P10): it is accepted, every voxel is that of the voxel it came from, and turns after one
// another are one turn. There is no code here; the theorems speak of the definitions that the promise of `turn` cites.
#![tactic(auto)]
