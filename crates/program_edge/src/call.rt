// The call of a program: its words, and what is reported about them on standard error.
use crate::asked::{Asked, asked_by_person};
use crate::kept_files::Keeping;
use crate::listening::keeping_for;
use std::env;
use std::io::{self, ErrorKind};

/// The call of the program that runs.
#[derive(Drop)]
pub struct Call {
    words: Vec<String>,
    asked: Option<Asked>,
    keeping: Keeping,
}

// The words after the program's name. If one is not UTF-8, there are no words, which is not a valid command line.
fn words_of(rt: &HostRuntime) -> io::Result<Vec<String>> {
    let mut words = Vec::new(rt.alloc());
    match env::args(rt) {
        Ok(args) => {
            for word in args.skip(1) {
                words.push(word)?;
            }
            Ok(words)
        }
        Err(error) if error.kind() == ErrorKind::InvalidData => Ok(words),
        Err(error) => Err(error),
    }
}

impl Call {
    /// The words and the environment of the program. It fails only if memory runs out.
    pub fn of(rt: &HostRuntime) -> io::Result<Call> {
        let words = words_of(rt)?;
        let asked = asked_by_person(words.as_slice());
        // A person who asked for something else sees nothing about the words.
        let keeping = match asked {
            Some(_) => Keeping::Nothing,
            None => keeping_for(rt),
        };
        Ok(Call {
            words,
            asked,
            keeping,
        })
    }

    /// The words after the program's name.
    pub fn words(&self) -> &[String] {
        self.words.as_slice()
    }

    /// What a person asks for in them.
    pub fn asked(&self) -> Option<Asked> {
        self.asked
    }

    /// What the program keeps of the run, to report on it.
    pub fn keeping(&self) -> Keeping {
        self.keeping
    }
}
