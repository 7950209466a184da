//! Tests of single calls: those that no row of a command reaches, and known values of the layers below.
//!
//! They are in a crate of their own, since a crate with tests is proved twice.
#![tactic(auto)]

#[cfg(test)]
mod blocks;
#[cfg(test)]
mod files;
#[cfg(test)]
mod instructions;
#[cfg(test)]
mod lines;
#[cfg(test)]
mod players;
#[cfg(test)]
mod streams;
#[cfg(test)]
mod tiles;
#[cfg(test)]
mod words;
