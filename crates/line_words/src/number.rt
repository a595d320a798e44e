// The numbers of a line.
ghost use Rattle.std.specs.Prelude.{◌≡◌, ◌≤◌, ◌<◌, ◌+◌, ◌*◌, ◌^◌, SomeIff};
ghost use Rattle.line_words.specs.Number.{number_of, number_in};

const DECIMAL: u32 = 10;

const HEXADECIMAL: u32 = 16;

// A number with one digit more after it, below 2^64.
fn with_digit(number: u64, base: u32, digit: u32) -> Option<u64>
    ensures { SomeIff result (number * base + digit < 2 ^ 64) (number * base + digit) }
{
    number
        .checked_mul(u64::from(base))?
        .checked_add(u64::from(digit))
}

// The number that digits of a base spell, below 2^64.
fn number_in(base: u32, digits: &[u8]) -> Option<u64>
    requires low { 2 ≤ base }
    requires high { base ≤ 16 }
    ensures { result ≡ number_in base digits.now }
{
    if digits.is_empty() {
        return None;
    }
    let mut number = 0u64;
    'digits: for byte in digits {
        match char::from(*byte).to_digit(base) {
            None => return None,
            Some(digit) => match with_digit(number, base, digit) {
                None => return None,
                Some(longer) => number = longer,
            },
        }
    }
    Some(number)
}

/// The number that a word spells: decimal digits, or `0x` and hexadecimal digits of either case, below 2^64.
pub fn number_of(word: &[u8]) -> Option<u64>
    ensures { result ≡ number_of word.now }
{
    match word {
        [b'0', b'x', digits @ ..] => number_in(HEXADECIMAL, digits),
        digits => number_in(DECIMAL, digits),
    }
}
