// The twelve examples that document 01 wants shown ("The strength asked of the statements"): specs/ has them as one table under one statement, about the
// definitions of cutting, reading and the session; proofs/ shows it. There is no code to run.
#![tactic(auto)]
