// The common frame of any exchange: 27, a header with a length in it, the body, the check byte, 0D 0A. What is said and proved here is said
// over the header, so that an exchange is its header, its kinds and their rows. There is no code here.
#![tactic(auto)]
