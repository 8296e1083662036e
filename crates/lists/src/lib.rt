// Lists of calls: theory only, in specs/ and proofs/.
#![tactic(auto)]
