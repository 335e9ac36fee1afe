// What the later rules of the check change: the trials by a loop's range, and 35. Laws only: specs/ and proofs/. There is no code here.
#![tactic(auto)]
