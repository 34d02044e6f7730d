// The numbers of 01-scope.md, "Numbers on each side", that are marked P: proved together as one table, in
// proofs/Table.antt. There is no code here; the table is computed by the definitions that the calls' promises cite.
#![tactic(auto)]
