// The rules of document 01, "The session", as far as they need no record of a session: what becomes of a state, of one open push, of the numbers
// that are held, and what a message says. The definitions are those of crates/conduct; crates/session asks, and keeps the record.
#![tactic(auto)]

pub mod heard;
pub mod moves;
pub mod numbers;
pub mod pushes;
pub mod sound;
pub mod states;
