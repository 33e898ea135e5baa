//! What the program was started with.
use std::env::Env;
use std::io::ErrorKind;
use std::{env, io};

/// The words behind the program's name.
#[derive(Debug, Drop)]
pub enum Given {
    /// All of them, in their order.
    Words(Vec<String>),
    /// One of them is no text: its bytes are no UTF-8 (RFC 3629).
    NoText,
    /// Memory was wanting.
    NoMemory,
}

/// The words with which the program was started, but for its own name.
pub fn words_given<R: Env + AllocGlobal>(runtime: &R) -> Given {
    match texts_given(runtime) {
        Ok(words) => Given::Words(words),
        Err(error) if error.kind() == ErrorKind::InvalidData => Given::NoText,
        Err(_) => Given::NoMemory,
    }
}

fn texts_given<R: Env + AllocGlobal>(runtime: &R) -> io::Result<Vec<String>> {
    let mut words = Vec::new(runtime.alloc());
    for word in env::args(runtime)?.skip(1) {
        words.push(word)?;
    }
    Ok(words)
}
