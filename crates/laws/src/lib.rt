// Definitions and laws that several crates cite: specs/ has what contracts name, proofs/ what their proofs use. There is no code to run.
#![tactic(auto)]
