// A domain with smaller strays and margins, and why a domain is refused: definitions in specs/, what they entail in proofs/. There is no code here.
#![tactic(auto)]
