//! What a command's options are called.

/// A command: its name, and the names of its options, without the dashes.
#[derive(Drop)]
pub struct Syntax<'a> {
    pub name: &'a str,
    pub options: Vec<&'a str>,
}
