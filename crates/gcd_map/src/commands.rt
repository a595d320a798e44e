// The commands of a text.
ghost use Rattle.std.specs.Prelude.{◌≡◌, ◌⊎◌, ◌<◌, ◌-◌, ◌^◌, ℕ, List, length, IfOk, IfErr};
ghost use Rattle.gcd_map.specs.{declared.command.Command.Command, CommandText.AreCommands, CommandText.IsFirstBad};
ghost use Rattle.gcd_map.specs.CommandFaults.{IsCommandFault, TakesLine};

use crate::command::{Command, read_command};
use line_words::{first_line, is_passed_over};
use pi_base::{OutOfMemory, Seq};
use std::alloc::Global;
use thiserror::Error;

/// Why commands could not be read from a text.
#[derive(Clone, Copy, Debug, PartialEq, Eq, Error)]
pub enum CommandFault {
    /// The number, from 1, of the first line that is neither skipped nor spells a command.
    #[error("Bad")]
    Bad { line: u32 },
    /// Memory ran out.
    #[error("Memory")]
    Memory,
}

impl From<OutOfMemory> for CommandFault {
    ghost use Rattle.std.specs.Prelude.{◌≡◌};
    ghost use Rattle.gcd_map.specs.declared.commands.CommandFault.TheVariants.{Memory};

    ghost from_gives = { λ _ fault. fault ≡ Memory };

    fn from(_want: OutOfMemory) -> CommandFault {
        CommandFault::Memory
    }
}

// Takes a line with its number, from 1.
fn take_line(commands: &mut Seq<Command>, number: u32, line: &[u8]) -> Result<(), CommandFault>
    ensures { TakesLine commands.old number line.now result commands.new }
{
    if is_passed_over(line) {
        return Ok(());
    }
    let Some(command) = read_command(line) else {
        return Err(CommandFault::Bad { line: number });
    };
    commands.push(command)?;
    Ok(())
}

/// Reads the commands of a text, of fewer than 2^32 - 1 bytes. Lines that are empty or begin with `#` are skipped.
pub fn read_commands(alloc: Global, text: &[u8]) -> Result<Seq<Command>, CommandFault>
    requires { length text.now < 2 ^ 32 - 1 }
    ensures found { IfOk result (AreCommands text.now) }
    ensures fault { IfErr result (IsCommandFault text.now) }
{
    let mut commands = Seq::new(alloc);
    let mut rest = text;
    let mut count = 0u32;
    'lines: while !rest.is_empty() {
        let (line, after) = first_line(rest);
        count += 1;
        take_line(&mut commands, count, line)?;
        rest = after;
    }
    Ok(commands)
}

/// A text is one list of commands, or it has one first line that spells no command, and never both.
pub fn one_reading()
    ensures commands { (text : List ℕ) (a b : List Command) → AreCommands text a → AreCommands text b → a ≡ b }
    ensures lines { (text : List ℕ) (a b : ℕ) → IsFirstBad text a → IsFirstBad text b → a ≡ b }
    ensures apart { (text : List ℕ) (commands : List Command) (line : ℕ) → AreCommands text commands → IsFirstBad text line → ⊥ }
    ensures some { (text : List ℕ) → ((commands : List Command) × AreCommands text commands) ⊎ ((line : ℕ) × IsFirstBad text line) }
{}
