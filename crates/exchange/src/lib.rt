// What a reading of an exchange's frames answers, said once for every exchange: an exchange is its header and the checks behind it. There is no
// code here.
#![tactic(auto)]
