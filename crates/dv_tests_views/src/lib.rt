//! Tests of stages that are updated by changes, and of views: what neither a contract nor a script says. Worked examples are data
//! of `docd`.
#![tactic(auto)]

#[cfg(test)]
mod told_and_kept;
#[cfg(test)]
mod turns;
