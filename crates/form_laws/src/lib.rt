// Laws of forms: equal forms, the scan that ends early, and the trials of a showing: specs/ and proofs/. There is no code here.
#![tactic(auto)]
