// Examples of what entering a name does, worked by hand from the rules and run against `store`.
//
// An outcome is the masks of the symbol after the entering, the number of the fault, or that there is no such symbol.
// Every example has small places of its own.
#![tactic(auto)]

#[cfg(test)]
mod faults;
#[cfg(test)]
mod mangling;
#[cfg(test)]
mod named;
#[cfg(test)]
mod outcomes;
#[cfg(test)]
mod places;
#[cfg(test)]
mod roles;
#[cfg(test)]
mod room;
#[cfg(test)]
mod tables;
#[cfg(test)]
mod words;
