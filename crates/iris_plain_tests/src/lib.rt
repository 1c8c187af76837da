//! Tests of nodes, shapes, the plain file system and the table of rows. No code but tests.
#![tactic(auto)]

#[cfg(test)]
mod files;
#[cfg(test)]
mod lines;
#[cfg(test)]
mod nodes;
#[cfg(test)]
mod order;
#[cfg(test)]
mod random;
#[cfg(test)]
mod records;
#[cfg(test)]
mod shapes;
#[cfg(test)]
mod table;
