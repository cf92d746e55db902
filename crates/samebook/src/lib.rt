#![tactic(auto)]

// What Write gives, loaded, is the same book: theorems on the definitions, in proofs/. There is no code here.
