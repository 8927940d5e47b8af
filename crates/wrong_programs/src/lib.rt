// The wrong programs of document 01 and of request b, as functions from what a job is given to what it leaves, and the
// inputs at which the contracts and the demands refuse them: definitions in specs/, proofs in proofs/. There is no code
// here.
#![tactic(auto)]
