// The arguments of the programs: options, each with the name of a file after it, then the names of
// what is read. (They are read into buffers: std's list of arguments allocates, and a program that
// is out of memory would be new.)
use crate::streams::MOST_NAME;
use std::env::{Env, FillError};

// More bytes than an option has.
const WORD: usize = 16;

// What the arguments ask for: a run, the use text, or nothing that the program takes. (An enum of
// its own: three answers, of which none is a failure.)
#[derive(Clone, Copy, Debug, PartialEq, Eq)]
pub enum Wish {
    Run,
    Help,
    Wrong,
}

// Whether argument i is there.
fn is_given(env: &impl Env, i: usize) -> bool {
    let mut byte = [0u8; 1];
    !matches!(env.arg(i, &mut byte), Err(FillError::NotPresent))
}

// How many arguments there are, the program's name among them.
pub fn arg_count(env: &impl Env) -> usize {
    (0..usize::MAX)
        .find(|i| !is_given(env, *i))
        .unwrap_or(usize::MAX)
}

// Whether argument i is this word.
pub fn is_word(env: &impl Env, i: usize, word: &[u8]) -> bool {
    let mut found = [0u8; WORD];
    match env.arg(i, &mut found) {
        Ok(n) => &found[..n] == word,
        Err(_) => false,
    }
}

// Whether argument i begins as an option does, with `-`, and is not `-` alone. Of one that is too
// long the first bytes are told.
fn is_option(env: &impl Env, i: usize) -> bool {
    let mut word = [0u8; WORD];
    match env.arg(i, &mut word) {
        Ok(n) => matches!(&word[..n], [b'-', _, ..]),
        Err(_) => word[0] == b'-',
    }
}

// Whether argument i can be the name of a file after an option: it is there, and does not begin
// with `-`. `-` alone is none either: standard input and output have their uses already.
pub fn is_name(env: &impl Env, i: usize) -> bool {
    let mut name = [0u8; MOST_NAME];
    match env.arg(i, &mut name) {
        Ok(n) => 0 < n && name[0] != b'-',
        Err(_) => false,
    }
}

// How many inputs stand among the arguments from one on; without any, standard input is one.
pub fn input_count(env: &impl Env, from: usize) -> usize {
    arg_count(env).saturating_sub(from).max(1)
}

// What the arguments ask for, if the names of at most so many inputs may stand from one on.
pub fn wish_of(env: &impl Env, from: usize, most: usize) -> Wish {
    if is_word(env, 1, b"--help") {
        return Wish::Help;
    }
    if most < input_count(env, from) || (from..arg_count(env)).any(|i| is_option(env, i)) {
        return Wish::Wrong;
    }
    Wish::Run
}
