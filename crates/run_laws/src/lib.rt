// An occurrence of a run as the sum of document 01, and worked lines of document 02, b. There is no code here.
#![tactic(auto)]
