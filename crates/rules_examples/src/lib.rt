#![tactic(auto)]

// Document 01's marked examples in one table, and runs that show what it says besides in another. No code: definitions in specs/, proofs in proofs/.
