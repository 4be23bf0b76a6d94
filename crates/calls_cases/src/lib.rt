// The marked cases of document 01, "Either side of the line", as a table over the definitions of `calls`. There is no code here.
#![tactic(auto)]
