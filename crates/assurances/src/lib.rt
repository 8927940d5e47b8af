// The demands 2 and 3 where they are seen: at the doors, and in what the program prints. Definitions in specs/, proofs
// in proofs/. There is no code here.
#![tactic(auto)]
