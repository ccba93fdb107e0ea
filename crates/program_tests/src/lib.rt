//! Tests of the program's crates over their public calls, of what no case of `program_cases` can show: copies,
//! files too large to lie in a folder, and files of the system.
#![tactic(auto)]

#[cfg(test)]
mod copies;
#[cfg(test)]
mod limits;
#[cfg(test)]
mod system;
