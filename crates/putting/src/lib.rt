// Fields that passed their tests, put by a writer of bits: what is asked and left, in specs/, and its laws, in proofs/.
#![tactic(auto)]
