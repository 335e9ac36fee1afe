// The records that a call writes: definitions and their laws, in specs/ and proofs/. There is no code here.
#![tactic(auto)]
