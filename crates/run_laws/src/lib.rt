// Laws of every run, checked or not: where it ends, and the frames that it makes: specs/ and proofs/. There is no code here.
#![tactic(auto)]
