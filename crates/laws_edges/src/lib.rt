// The starred edges of the owner's paper, of frames and of the ledger, under one statement. There is no code here.
#![tactic(auto)]
