// The operands of actions. A reader gives a value and the words behind it.
ghost use Rattle.std.specs.Prelude.{◌≡◌, ◌==◌, length};
ghost use Rattle.act_code.specs.Format.{is_within};
ghost use Rattle.source_words.specs.{Words.words, Reading.Gives, Reading.only_if};
ghost use Rattle.source_words.specs.declared.script.fault.LineFault.TheVariants as fault;
ghost use Rattle.source_words.specs.Operands.{register_at, within_at, choice_at, guid_at, block_at, guid_arg_at, last_at, small_at};

use crate::script::fault::{LineFault, Stop};
use crate::script::word::{choice_of, register_of, word};
use crate::{guid_of, is_keyword, next_word};
use act_code::descriptor_kind::PPI;
use act_code::{Action, Code, GuidArg};
use line_words::number_of;
use pi_base::Guid;

/// The last number of a block.
const LAST_BLOCK: u8 = 63;

/// The action, where nothing follows its operands.
pub(crate) fn ended(action: Action, rest: &[u8]) -> Result<Action, Stop>
    ensures { Gives (λ x. x) result (only_if (length (words rest.now) == 0) fault.Extra action) }
{
    match next_word(rest) {
        None => Ok(action),
        Some(_) => Err(Stop::Fault(LineFault::Extra)),
    }
}

/// A register.
#[tactic(auto, unfolding(crate::specs::Operands::register_at))]
pub(crate) fn register(text: &[u8]) -> Result<(u8, &[u8]), Stop>
    ensures { Gives (λ x. (x.0, words x.1.now)) result (register_at (words text.now)) }
{
    let (word, rest) = word(text)?;
    match register_of(word) {
        Some(r) => Ok((r, rest)),
        None => Err(Stop::Fault(LineFault::Register)),
    }
}

// Whether a number is one from another to a third.
fn is_within(low: u64, high: u64, n: u64) -> bool
    ensures { result ≡ is_within low high n }
{
    low <= n && n <= high
}

/// A number from one to another.
#[tactic(auto, unfolding(crate::specs::Operands::within_at))]
pub(crate) fn small(text: &[u8], low: u8, high: u8) -> Result<(u8, &[u8]), Stop>
    ensures { Gives (λ x. (x.0, words x.1.now)) result (within_at low high (words text.now)) }
{
    let (word, rest) = word(text)?;
    let Some(n) = number_of(word) else {
        return Err(Stop::Fault(LineFault::Number));
    };
    if is_within(u64::from(low), u64::from(high), n) {
        Ok((n as u8, rest))
    } else {
        Err(Stop::Fault(LineFault::Range))
    }
}

// One of two words, for 0 and 1.
#[tactic(auto, unfolding(crate::specs::Operands::choice_at))]
fn choice<'a>(text: &'a [u8], zero: &[u8], one: &[u8]) -> Result<(u8, &'a [u8]), Stop>
    ensures { Gives (λ x. (x.0, words x.1.now)) result (choice_at zero.now one.now (words text.now)) }
{
    let (word, rest) = word(text)?;
    match choice_of(word, zero, one) {
        Some(n) => Ok((n, rest)),
        None => Err(Stop::Fault(LineFault::Word)),
    }
}

/// A small number of an action, from one to another: that of `boot_mode`, and of a driver's `install`, is a word.
pub(crate) fn small_of(code: Code, text: &[u8], low: u8, high: u8) -> Result<(u8, &[u8]), Stop>
    ensures { Gives (λ x. (x.0, words x.1.now)) result (small_at code low high (words text.now)) }
{
    match code {
        Code::BootMode => choice(text, b"get", b"set"),
        Code::DxeInstall => choice(text, b"new", b"on"),
        _ => small(text, low, high),
    }
}

/// A GUID.
#[tactic(auto, unfolding(crate::specs::Operands::guid_at))]
pub(crate) fn guid(text: &[u8]) -> Result<(Guid, &[u8]), Stop>
    ensures { Gives (λ x. (x.0, words x.1.now)) result (guid_at (words text.now)) }
{
    let (word, rest) = word(text)?;
    match guid_of(word) {
        Some(guid) => Ok((guid, rest)),
        None => Err(Stop::Fault(LineFault::Guid)),
    }
}

/// The number of a block.
#[tactic(auto, unfolding(crate::specs::Operands::block_at))]
pub(crate) fn block(text: &[u8]) -> Result<(u8, &[u8]), Stop>
    ensures { Gives (λ x. (x.0, words x.1.now)) result (block_at (words text.now)) }
{
    let (word, rest) = word(text)?;
    if is_keyword(word, b"block") {
        small(rest, 0, LAST_BLOCK)
    } else {
        Err(Stop::Fault(LineFault::Word))
    }
}

/// A GUID, or the register with its address.
#[tactic(auto, unfolding(crate::specs::Operands::guid_arg_at))]
pub(crate) fn guid_arg(text: &[u8]) -> Result<(GuidArg, &[u8]), Stop>
    ensures { Gives (λ x. (x.0, words x.1.now)) result (guid_arg_at (words text.now)) }
{
    let (word, rest) = word(text)?;
    if is_keyword(word, b"at") {
        let (v, rest) = register(rest)?;
        Ok((GuidArg::Register(v), rest))
    } else {
        let (guid, rest) = guid(text)?;
        Ok((GuidArg::Inline(guid), rest))
    }
}

/// A PPI's register, or a notification's block.
#[tactic(auto, unfolding(crate::specs::Operands::last_at))]
pub(crate) fn last(kind: u8, text: &[u8]) -> Result<(u8, &[u8]), Stop>
    ensures { Gives (λ x. (x.0, words x.1.now)) result (last_at kind (words text.now)) }
{
    if kind == PPI {
        register(text)
    } else {
        block(text)
    }
}
