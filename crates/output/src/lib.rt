// What the desk program prints is one definition (specs/Output.antt), and the pieces that it writes, joined, are that. There is
// no code here.
#![tactic(auto)]
