// What the calls for C and Rust tell, as theorems: an outcome tells its answer, a message's numbers tell the message. There is no code here.
#![tactic(auto)]
