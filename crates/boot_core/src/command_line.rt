// The words of a command line.
ghost use Rattle.std.specs.Prelude.{◌≡◌, ◌≢◌, ◌↔◌, ℕ, List, [], ◌∷◌, codes, IfSome, IfNone, IsTrue};
ghost use Rattle.boot_core.specs.CommandLine.{AskFor, AskForGenerated, IsCount, NameNoPlan, verb_of};
ghost use Rattle.boot_io.specs.Words.{words_of};

use fv_volume::build::MOST_MODULES;
use pi_base::decimal;

/// What is asked for.
#[derive(Clone, Copy)]
pub(crate) enum Command {
    Boot,
    Audit,
}

// What a word asks for.
fn command_of(verb: &str) -> Option<Command>
    ensures found { IfSome result (λ command. verb.now ≡ verb_of command) }
    ensures none { IfNone result ((command : Command) → verb.now ≢ verb_of command) }
{
    if verb == "boot" {
        Some(Command::Boot)
    } else if verb == "audit" {
        Some(Command::Audit)
    } else {
        None
    }
}

/// What the words ask for, and of which plan.
pub(crate) fn asked_plan(words: &[String]) -> Option<(Command, &str)>
    ensures found { IfSome result (λ asked. AskFor (words_of words.now) asked.0 asked.1.now) }
    ensures none { IfNone result (NameNoPlan (words_of words.now)) }
{
    match words {
        [verb, plan] => {
            let plan = plan.as_str();
            if plan.is_empty() {
                return None;
            }
            match command_of(verb.as_str()) {
                Some(command) => Some((command, plan)),
                None => None,
            }
        }
        _ => None,
    }
}

// Whether a word is this number of modules of a generated volume, in shortest decimal digits.
fn is_count(word: &[u8], number: u32) -> bool
    ensures { IsTrue result ↔ IsCount word.now number }
{
    let mut digits = [0u8; 20];
    let len = decimal(u64::from(number), &mut digits);
    let (text, _) = digits.split_at(len);
    number >= 1 && number <= MOST_MODULES && text == word
}

// The number of modules of a generated volume that a word is.
fn count_of(word: &str) -> Option<u32>
    ensures found { IfSome result (IsCount word.now) }
    ensures none { IfNone result ((number : ℕ) → IsCount word.now number → ⊥) }
{
    match word.parse::<u32>() {
        Ok(number) => {
            if is_count(word.as_bytes(), number) {
                Some(number)
            } else {
                None
            }
        }
        Err(_) => None,
    }
}

// Whether a word is the verb of a generated volume.
fn is_generate(verb: &str) -> bool
    ensures { IsTrue result ↔ (verb.now ≡ codes "generate") }
{
    verb == "generate"
}

// The word behind `generate`, where there are these two words.
fn word_behind(words: &[String]) -> Option<&str>
    ensures found { IfSome result (λ word. words_of words.now ≡ codes "generate" ∷ word.now ∷ []) }
    ensures none { IfNone result ((word : List ℕ) → words_of words.now ≡ codes "generate" ∷ word ∷ [] → ⊥) }
{
    match words {
        [verb, word] => {
            let word = word.as_str();
            if is_generate(verb.as_str()) {
                Some(word)
            } else {
                None
            }
        }
        _ => None,
    }
}

/// Of how many modules the words ask for a generated volume.
pub(crate) fn asked_number(words: &[String]) -> Option<u32>
    ensures found { IfSome result (AskForGenerated (words_of words.now)) }
    ensures none { IfNone result ((number : ℕ) → AskForGenerated (words_of words.now) number → ⊥) }
{
    match word_behind(words) {
        Some(word) => count_of(word),
        None => None,
    }
}
