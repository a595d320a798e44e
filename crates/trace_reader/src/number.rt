// Words of numbers.
ghost use Rattle.std.specs.Prelude.{◌≡◌, ◌<◌, ◌≤◌, ◌^◌, decimal};
ghost use Rattle.line_words.specs.PrintedWords.{Finds};
ghost use Rattle.boot_model.specs.Text.{by_text};

use crate::field::Field;
use boot_trace::marks::CORE_MAKER;
use line_words::printed::{decimal_of, hexadecimal_of};
use store_model::CORE;

// A decimal number of at most a value.
fn decimal_within(word: &[u8], most: u64) -> Option<u64>
    ensures { Finds (λ n. (n ≤ most) × (word.now ≡ decimal n)) result }
{
    match decimal_of(word) {
        Some(number) if number <= most => Some(number),
        _ => None,
    }
}

impl Field for u32 {
    ghost use Rattle.std.specs.Prelude.{◌<◌, ◌^◌, decimal};

    ghost shows = { decimal };

    ghost fits = { λ n. n < 2 ^ 32 };

    #[tactic(auto, using(crate::proofs::PlainWords::decimal_32_plain))]
    fn read(word: &[u8]) -> Option<u32> {
        match decimal_within(word, u64::from(u32::MAX)) {
            Some(number) => Some(number as u32),
            None => None,
        }
    }
}

impl Field for u16 {
    ghost use Rattle.std.specs.Prelude.{◌<◌, ◌^◌, decimal};

    ghost shows = { decimal };

    ghost fits = { λ n. n < 2 ^ 16 };

    #[tactic(auto, using(crate::proofs::PlainWords::decimal_16_plain))]
    fn read(word: &[u8]) -> Option<u16> {
        match decimal_within(word, u64::from(u16::MAX)) {
            Some(number) => Some(number as u16),
            None => None,
        }
    }
}

// A number of 64 bits in decimal.
#[derive(Clone, Copy)]
pub(crate) struct Decimal(pub u64);

impl Field for Decimal {
    ghost use Rattle.std.specs.Prelude.{◌<◌, ◌^◌, decimal};

    ghost shows = { λ n. decimal n.0 };

    ghost fits = { λ n. n.0 < 2 ^ 64 };

    #[tactic(auto, using(line_words::proofs::PlainWords::decimal_plain))]
    fn read(word: &[u8]) -> Option<Decimal> {
        match decimal_of(word) {
            Some(number) => Some(Decimal(number)),
            None => None,
        }
    }
}

// A number of 64 bits in hexadecimal.
#[derive(Clone, Copy)]
pub(crate) struct Hexadecimal(pub u64);

impl Field for Hexadecimal {
    ghost use Rattle.std.specs.Prelude.{◌<◌, ◌^◌};
    ghost use Rattle.pi_base.specs.WordText.{hexadecimal};

    ghost shows = { λ n. hexadecimal n.0 };

    ghost fits = { λ n. n.0 < 2 ^ 64 };

    #[tactic(auto, using(line_words::proofs::PlainWords::hexadecimal_plain))]
    fn read(word: &[u8]) -> Option<Hexadecimal> {
        match hexadecimal_of(word) {
            Some(number) => Some(Hexadecimal(number)),
            None => None,
        }
    }
}

// The number of a module, or the core.
#[derive(Clone, Copy)]
pub(crate) struct By(pub u32);

// The number of a module, or the core's.
#[tactic(auto, using(crate::proofs::PlainWords::core_is, crate::proofs::PlainWords::module_is))]
fn by_of(word: &[u8]) -> Option<u32>
    ensures { Finds (λ by. (by < 2 ^ 32) × (word.now ≡ by_text by)) result }
{
    if word == CORE_MAKER {
        return Some(CORE);
    }
    match decimal_within(word, u64::from(CORE) - 1) {
        Some(number) => Some(number as u32),
        None => None,
    }
}

impl Field for By {
    ghost use Rattle.std.specs.Prelude.{◌<◌, ◌^◌};
    ghost use Rattle.boot_model.specs.Text.{by_text};

    ghost shows = { λ by. by_text by.0 };

    ghost fits = { λ by. by.0 < 2 ^ 32 };

    #[tactic(auto, using(crate::proofs::PlainWords::by_plain))]
    fn read(word: &[u8]) -> Option<By> {
        match by_of(word) {
            Some(by) => Some(By(by)),
            None => None,
        }
    }
}
