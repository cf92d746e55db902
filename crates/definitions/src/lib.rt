#![tactic(auto)]

// The definitions that every contract of this repository cites: see specs/. There is no code here.
