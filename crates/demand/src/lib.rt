#![tactic(auto)]

// Demand 3 for the code: the kernel's calls and rows repeated, with what load and save give, against the plain book. There is no code here.
