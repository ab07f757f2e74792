// The lines that the programs print, as values.
//
// A program makes a value of the line and prints it by `{line}`: `lines` has the lines, `escaped` the names in
// them. What `{}` writes of each is a definition of `specs/`, so that a clause about a line can cite it. A line
// is words with one space between each two, and the line feed is left to the program. A name can hold any bytes
// and is written as one word: a byte that is no visible ASCII, and the backslash, as a backslash and two digits.
#![tactic(auto)]

pub mod escaped;
pub mod lines;
#[cfg(test)]
mod tests;
