#![tactic(auto)]

// What makes the planner right: its search and its expansion, as definitions in specs/, and their theorems in proofs/. There is no code here.
