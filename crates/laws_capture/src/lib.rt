// Laws of a capture over a series of appends, each of which a power loss may cut short after any of its stores. There is no code here.
#![tactic(auto)]
