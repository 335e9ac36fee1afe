// Further computed examples of the definitions, which no must-fail edit of theirs needs: specs/. There is no code here.
#![tactic(auto)]
