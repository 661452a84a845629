//! Source texts, as they were found.

use byte_text::Text;
use std::marker::Model;

/// What is known of a file's text.
#[derive(Debug, Drop)]
pub enum Source {
    Found(Text),
    Missing,
    /// The text is above the limit, with so many bytes.
    TooLong(u64),
}

/// Files by their names, and what is known of their texts. Contracts see the list of the pairs.
#[derive(Debug, Drop)]
pub struct Texts {
    pub items: Vec<(Text, Source)>,
}

impl Model for Texts {
    ghost use Rattle.annotate.specs.Report.{SourceTexts};

    ghost Value = { SourceTexts };

    ghost view = { λ t. t.items.items };
}
