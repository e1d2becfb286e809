//! Rows of the definitions on which the headline depends, each worked out by hand and compared with what the definition
//! computes. There is no code here, and nothing depends on it.
#![tactic(auto)]
