// Definitions and theorems only; there is no code here to run. specs/ says what is right, proofs/ what follows from it.
#![tactic(auto)]
