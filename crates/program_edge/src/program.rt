// A program as a person knows it.
use crate::asked::Asked;
use std::str;

/// A program as its user knows it. It writes reports to standard error, one line each. The exit status alone is enough if nothing can be written there.
#[derive(Clone, Copy)]
pub struct Program {
    /// Its name.
    pub name: &'static str,
    /// The forms of its command line.
    pub forms: &'static str,
}

/// Bytes as text, or words that say so if they are not UTF-8.
pub fn text_of(bytes: &[u8]) -> &str {
    match str::from_utf8(bytes) {
        Ok(text) => text,
        Err(_) => "what is no UTF-8",
    }
}

impl Program {
    /// Reports what is at fault, and why.
    pub fn put(&self, rt: &HostRuntime, what: &str, why: &str) {
        let name = self.name;
        let _ = eprintln!(rt; "{name}: {what}: {why}");
    }

    /// Answers what a person asked for.
    pub fn answer(&self, rt: &HostRuntime, asked: Asked) {
        match asked {
            Asked::Forms => {
                let forms = self.forms;
                let _ = eprintln!(rt; "{forms}");
            }
            Asked::Version => self.put_version(rt),
        }
    }
}
