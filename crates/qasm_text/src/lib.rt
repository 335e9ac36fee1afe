// Lists as OpenQASM 2.0 text: definitions, their laws and the theorem, in specs/ and proofs/. There is no code here.
#![tactic(auto)]
