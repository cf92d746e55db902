#![tactic(auto)]

// What a row reads, and that every edit keeps rows true: see proofs/. There is no code here.
