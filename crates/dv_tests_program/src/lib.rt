//! Tests of the store, of sessions, scripts and connections: what neither a contract nor a script says. Worked examples are data of
//! `docd`.
#![tactic(auto)]

#[cfg(test)]
mod commands;
#[cfg(test)]
mod empty;
#[cfg(test)]
mod hosting;
#[cfg(test)]
mod hubs;
#[cfg(test)]
mod loads;
#[cfg(test)]
mod scripts;
#[cfg(test)]
mod serving;
#[cfg(test)]
mod sessions;
#[cfg(test)]
mod sizes;
#[cfg(test)]
mod stored;
