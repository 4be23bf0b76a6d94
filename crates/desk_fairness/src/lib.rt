// Demand 3 is a theorem about the definitions of the crate desk (specs/Demand3.antt). There is no code here.
#![tactic(auto)]
