// Laws of lists that several crates use: of loops that go from the front on. There is no code here.
#![tactic(auto)]
