#![tactic(auto)]

// What makes a merge right: theorems on the definitions, in proofs/. There is no code here.
