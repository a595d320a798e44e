// Words of numbers.
ghost use Rattle.std.specs.Prelude.{◌≡◌, ◌<◌, ◌≤◌, ◌^◌, ℕ, decimal, false, Some};
ghost use Rattle.std.specs.Fmt.{digits};
ghost use Rattle.pi_base.specs.WordText.{hexadecimal};
ghost use Rattle.line_words.specs.PrintedWords.{Finds};

use crate::printed::place::behind;
use pi_base::{DECIMAL_LEN, HEXADECIMAL_LEN, decimal, hexadecimal};
use std::str;

const DECIMAL: u32 = 10;

const HEXADECIMAL: u32 = 16;

// The number whose digits these are, if they are a number's.
fn value_of(text: &[u8], base: u32) -> Option<u64>
    requires low { 2 ≤ base }
    requires high { base ≤ 16 }
    ensures { (n : ℕ) → n < 2 ^ 64 → text.now ≡ digits base false n → result ≡ Some n }
{
    match str::from_utf8(text) {
        Ok(digits) => u64::from_str_radix(digits, base).ok(),
        Err(_) => None,
    }
}

/// The number below 2^64 that a word prints in decimal, without leading zeros. None if the word is not such a print.
pub fn decimal_of(word: &[u8]) -> Option<u64>
    ensures { Finds (λ n. (n < 2 ^ 64) × (word.now ≡ decimal n)) result }
{
    let Some(number) = value_of(word, DECIMAL) else {
        return None;
    };
    let mut digits = [0u8; DECIMAL_LEN];
    let len = decimal(number, &mut digits);
    let (text, _) = digits.split_at(len);
    if text == word { Some(number) } else { None }
}

/// The number below 2^64 that a word prints in lower-case hexadecimal, with `0x` before it and without leading zeros. None if the word is not such a print.
pub fn hexadecimal_of(word: &[u8]) -> Option<u64>
    ensures { Finds (λ n. (n < 2 ^ 64) × (word.now ≡ hexadecimal n)) result }
{
    let Some(behind_prefix) = behind(word, b"0x") else {
        return None;
    };
    let Some(number) = value_of(behind_prefix, HEXADECIMAL) else {
        return None;
    };
    let mut digits = [0u8; HEXADECIMAL_LEN];
    let len = hexadecimal(number, &mut digits);
    let (text, _) = digits.split_at(len);
    if text == word { Some(number) } else { None }
}
