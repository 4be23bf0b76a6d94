// The grammar of conditions, the tree that a text states, and laws about both (document 01, "Conditions"). There is no code here: the readers
// are in the crate condition_readers.
#![tactic(auto)]
