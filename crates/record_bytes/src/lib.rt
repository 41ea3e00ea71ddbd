#![tactic(auto)]

// The saved record's bytes, loading and saving, in specs/, and the proofs that reading and writing undo each other, in proofs/.
// There is no code here.
