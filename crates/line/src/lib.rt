// What the line side, written in C, links: functions on numbers and bytes (document 01, "Whose word counts" and "Form by location").
// include/ali_link.h declares them for C.
#![tactic(auto)]

mod gathering;
mod lists;
mod reading;
