// Formulas as people write them: the grammar, its parser and the instructions of a text, in specs/ and, in proofs/, what they entail. There is no code here.
#![tactic(auto)]
