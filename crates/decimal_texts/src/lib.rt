// Decimal texts: what one means, which of them are read and where others go wrong, and the text of a count, in specs/ and, in proofs/, what they entail. There is no code here.
#![tactic(auto)]
