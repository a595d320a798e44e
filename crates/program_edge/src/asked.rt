// What a person may ask of a program besides its commands.
ghost use Rattle.std.specs.Prelude.{IfSome, IfNone};
ghost use Rattle.boot_io.specs.Words.{words_of};
ghost use Rattle.program_edge.specs.{declared.asked.Asked.Asked as OfAsked, Asked.AskFor, Asked.IsWordFor};

/// What a person asks for in one word, which is no form of any command.
#[derive(Clone, Copy)]
pub enum Asked {
    /// The forms of a command line.
    Forms,
    /// Which program it is.
    Version,
}

// What a word asks for.
fn asked_in(word: &str) -> Option<Asked>
    ensures found { IfSome result (λ asked. IsWordFor word.now asked) }
    ensures none { IfNone result ((asked : OfAsked) → IsWordFor word.now asked → ⊥) }
{
    if word == "--help" || word == "-h" {
        Some(Asked::Forms)
    } else if word == "--version" {
        Some(Asked::Version)
    } else {
        None
    }
}

/// What a person asks for in the words, if they ask for one of these.
pub fn asked_by_person(words: &[String]) -> Option<Asked>
    ensures found { IfSome result (λ asked. AskFor (words_of words.now) asked) }
    ensures none { IfNone result ((asked : OfAsked) → AskFor (words_of words.now) asked → ⊥) }
{
    match words {
        [word] => asked_in(word.as_str()),
        _ => None,
    }
}
