// Histories: lists of the exported calls on a record, and the theorems over them. Definitions and proofs only; there is
// no code here.
#![tactic(auto)]
