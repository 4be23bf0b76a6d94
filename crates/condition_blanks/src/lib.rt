// Blanks round a literal change nothing of what a condition means (document 02, a, "Blanks round a value"). There is no code here.
#![tactic(auto)]
