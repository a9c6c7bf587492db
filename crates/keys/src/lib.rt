// Keys of two kinds behind one trait.
//
// `Key` is the interface: byte form, class, index number, what is lawful, reading and writing. `Number` (1 to 65,535) and
// `Name` (1 to 8 bytes) keep it; a contract sees a number as its value, and reads the text of a name by `name_text`. `Printed`
// says how a key prints; `Display` agrees with it. `read_keys` reads keys of any kind one after another.
//
// Promised, for every input: what each call answers and what then stands in every buffer is given by the definitions
// below; `==` compares byte forms, lawful keys are equal exactly when theirs are, no byte form begins another one, and
// what was written reads back. Nothing here allocates or panics.
//
// Definitions: specs/View.antt says what the rules see of a key, specs/Answers.antt what reading answers and which number
// a fault has, specs/Bytes.antt what a buffer holds after bytes were put into it, specs/Numbers.antt, specs/Texts.antt and
// specs/Names.antt what the two kinds are, specs/Index.antt what the index number is, specs/Sequences.antt what keys one
// after another are. The laws stand in src/key.rt, and what follows from them for every kind in src/laws.rt.

#![tactic(auto)]

pub mod bytes;
pub mod faults;
mod index;
pub mod key;
pub mod laws;
pub mod name;
pub mod number;
pub mod printed;
pub mod sequences;

pub use bytes::put;
pub use faults::KeyFault;
pub use key::Key;
pub use name::Name;
pub use number::Number;
pub use printed::Printed;
pub use sequences::read_keys;

#[cfg(test)]
mod tests;
