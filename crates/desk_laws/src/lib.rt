// The desk's calls in document 01's own words (specs/InWords.antt), and laws about sound desks. There is no code here.
#![tactic(auto)]
