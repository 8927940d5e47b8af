// Packing a text: what it answers, its refusals and what an accepted text leaves, in specs/ and, in proofs/, what they entail. There is no code here.
#![tactic(auto)]
