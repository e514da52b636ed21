// Laws of the board over a series of messages, and over a line. There is no code here.
#![tactic(auto)]
