// The operands of actions, each after a space. A reader returns a value and what follows it.
ghost use Rattle.std.specs.Prelude.{◌≡◌, ◌==◌, length};
ghost use Rattle.act_code.specs.{Format.is_within, Reading.Gives, Reading.only_if};
ghost use Rattle.asm_text.specs.WordReading.{number_word, choice_word};
ghost use Rattle.asm_text.specs.OperandReading.{register_at, within_at, guid_at, block_at, guid_arg_at, last_at, small_word};

use crate::front::guid_word;
use crate::word::{choice_word, decimal_word, register_word, word};
use act_code::descriptor_kind::PPI;
use act_code::{Action, Code, GuidArg, MOST_BLOCKS, Unread};
use pi_base::Guid;

/// The last number of a block.
const LAST_BLOCK: u8 = MOST_BLOCKS - 1;

/// The action, if nothing follows its operands.
pub(crate) fn ended(action: Action, rest: &[u8]) -> Result<Action, Unread>
    ensures { Gives (λ x. x) result (only_if (length rest.now == 0) action) }
{
    if rest.is_empty() {
        Ok(action)
    } else {
        Err(Unread::Malformed)
    }
}

/// A register.
#[tactic(auto, unfolding(crate::specs::OperandReading::register_at))]
pub(crate) fn register(text: &[u8]) -> Result<(u8, &[u8]), Unread>
    ensures { Gives (λ x. (x.0, x.1.now)) result (register_at text.now) }
{
    let (word, rest) = word(text)?;
    match register_word(word) {
        Some(r) => Ok((r, rest)),
        None => Err(Unread::Malformed),
    }
}

// Whether a number is one from another to a third.
fn is_within(low: u64, high: u64, n: u64) -> bool
    ensures { result ≡ is_within low high n }
{
    low <= n && n <= high
}

/// A small number in decimal, from one to another.
#[tactic(auto, unfolding(crate::specs::OperandReading::within_at))]
pub(crate) fn small(text: &[u8], low: u8, high: u8) -> Result<(u8, &[u8]), Unread>
    ensures { Gives (λ x. (x.0, x.1.now)) result (within_at (number_word 10) low high text.now) }
{
    let (word, rest) = word(text)?;
    let Some(n) = decimal_word(word) else {
        return Err(Unread::Malformed);
    };
    if is_within(u64::from(low), u64::from(high), n) {
        Ok((n as u8, rest))
    } else {
        Err(Unread::Malformed)
    }
}

// One of two words, for 0 and 1, if its number is in the range.
#[tactic(auto, unfolding(crate::specs::OperandReading::within_at))]
fn choice<'a>(
    text: &'a [u8],
    zero: &[u8],
    one: &[u8],
    low: u8,
    high: u8,
) -> Result<(u8, &'a [u8]), Unread>
    ensures { Gives (λ x. (x.0, x.1.now)) result (within_at (choice_word zero.now one.now) low high text.now) }
{
    let (word, rest) = word(text)?;
    let Some(n) = choice_word(word, zero, one) else {
        return Err(Unread::Malformed);
    };
    if is_within(u64::from(low), u64::from(high), n) {
        Ok((n as u8, rest))
    } else {
        Err(Unread::Malformed)
    }
}

/// A small number of an action, within a range. The small numbers of `boot_mode` and of a driver's `install` are written as one of two words.
pub(crate) fn small_of(code: Code, text: &[u8], low: u8, high: u8) -> Result<(u8, &[u8]), Unread>
    ensures { Gives (λ x. (x.0, x.1.now)) result (within_at (small_word code) low high text.now) }
{
    match code {
        Code::BootMode => choice(text, b"get", b"set", low, high),
        Code::DxeInstall => choice(text, b"new", b"on", low, high),
        _ => small(text, low, high),
    }
}

/// A GUID.
#[tactic(auto, unfolding(crate::specs::OperandReading::guid_at))]
pub(crate) fn guid(text: &[u8]) -> Result<(Guid, &[u8]), Unread>
    ensures { Gives (λ x. (x.0, x.1.now)) result (guid_at text.now) }
{
    let (word, rest) = word(text)?;
    match guid_word(word) {
        Some(guid) => Ok((guid, rest)),
        None => Err(Unread::Malformed),
    }
}

/// The number of a block.
#[tactic(auto, unfolding(crate::specs::OperandReading::block_at))]
pub(crate) fn block(text: &[u8]) -> Result<(u8, &[u8]), Unread>
    ensures { Gives (λ x. (x.0, x.1.now)) result (block_at text.now) }
{
    let (word, rest) = word(text)?;
    if word == b"block".as_slice() {
        small(rest, 0, LAST_BLOCK)
    } else {
        Err(Unread::Malformed)
    }
}

/// A GUID, or the register with its address.
#[tactic(auto, unfolding(crate::specs::OperandReading::guid_arg_at))]
pub(crate) fn guid_arg(text: &[u8]) -> Result<(GuidArg, &[u8]), Unread>
    ensures { Gives (λ x. (x.0, x.1.now)) result (guid_arg_at text.now) }
{
    let (word, rest) = word(text)?;
    if word == b"at".as_slice() {
        let (v, rest) = register(rest)?;
        Ok((GuidArg::Register(v), rest))
    } else {
        let (guid, rest) = guid(text)?;
        Ok((GuidArg::Inline(guid), rest))
    }
}

/// A PPI's register, or a notification's block.
#[tactic(auto, unfolding(crate::specs::OperandReading::last_at))]
pub(crate) fn last(kind: u8, text: &[u8]) -> Result<(u8, &[u8]), Unread>
    ensures { Gives (λ x. (x.0, x.1.now)) result (last_at kind text.now) }
{
    if kind == PPI {
        register(text)
    } else {
        block(text)
    }
}
