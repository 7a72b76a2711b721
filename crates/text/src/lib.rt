#![tactic(auto)]

// Texts of the programs: what they read, and what they print.
pub mod arguments; // what the arguments ask for
pub mod inputs; // what is read, from standard input or from files
pub mod numbers; // texts of numbers
pub mod outputs; // files that are written
pub mod packs; // packs
pub mod program; // a program that runs, and what it says on standard error
pub mod show; // answers
pub mod streams; // reading and writing whose failures are noticed
pub mod words; // words and numbers
#[cfg(test)]
mod tests; // reading and writing that fail in the midst
