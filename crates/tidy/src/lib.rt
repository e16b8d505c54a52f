// Tidy lines: what a chest's results say, written one way. Crate results writes them, the crates that build the sheet read them.
// There is no code here yet but a number for those who cut a line: the byte that parts a pallet's fields.

#![tactic(auto)]

pub const SEPARATOR: u8 = b';';
