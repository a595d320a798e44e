// A mistake of a plan.
use crate::rule::Rule;
use std::fmt::{self, Display, Formatter};
use std::str;

/// A word of a plan at fault, and the rule that it breaks.
#[derive(Clone, Copy)]
pub struct Mistake<'a> {
    /// The word.
    pub word: &'a [u8],
    /// What it breaks.
    pub rule: Rule,
}

impl Display for Mistake<'_> {
    fn fmt<W: fmt::Write>(&self, f: &mut Formatter<W>) -> fmt::Result {
        let words = self.rule.words();
        match str::from_utf8(self.word) {
            Ok(word) => write!(f, "{word:?} {words}"),
            Err(_) => write!(f, "a word that is no UTF-8 {words}"),
        }
    }
}
