//! Tests of what needs no store: values, paths, updates, files, and the program's arguments. They test what neither a contract nor
//! a script says: that another library agrees, and what is too large for a script. Tests are in crates of their own, since a crate
//! with tests is proved twice. Worked examples are data of `docd`.
#![tactic(auto)]

#[cfg(test)]
mod bson;
#[cfg(test)]
mod far;
#[cfg(test)]
mod files;
#[cfg(test)]
mod lines;
#[cfg(test)]
mod paths;
#[cfg(test)]
mod words;
