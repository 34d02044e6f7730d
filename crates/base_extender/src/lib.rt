// The extender's rules before and after P2 (02-change-requests.md): a file that the base accepted is read and edited as it was. There is
// no code here; the theorems speak of the definitions that the promises of the reader and of the edits cite.
#![tactic(auto)]
