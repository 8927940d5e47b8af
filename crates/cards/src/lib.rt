// The card of static margins, on lists: definitions in specs/ and, in proofs/, what they entail. There is no code here.
#![tactic(auto)]
