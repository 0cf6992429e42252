// What the values of a message mean, references replaced and line ends made one (document 01, "The seven messages").
#![tactic(auto)]

pub mod meaning;
