// Counting pairs of nodes over the sides of rings, loops, quads and fronts: see specs/ and proofs/. It knows of no job.
#![tactic(auto)]
