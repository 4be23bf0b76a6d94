// What the definitions of every other crate are written with stands in specs/. There is no code here.
#![tactic(auto)]
