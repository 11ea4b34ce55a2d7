// What the tape program prints, without input or output: the line of each command, and which home blocks have one.
#![tactic(auto)]

pub mod turn; // one command: the numbers of its line, and whether the tape goes on
pub mod homes; // which home blocks have a line
