// What must be true of the jobs, as theorems about what they leave: definitions in specs/, proofs in proofs/. There is
// no code here.
#![tactic(auto)]
