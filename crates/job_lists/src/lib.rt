// What an accepted job left is an accepted tile list: see specs/ and proofs/.
#![tactic(auto)]
