// The mistakes of a line's numbers: which limit they pass.
ghost use Rattle.std.specs.Prelude.{◌≡◌, ◌≤◌, ◌∷◌, [], IfNone, IfSome};
ghost use Rattle.line_words.specs.Words.{words};
ghost use Rattle.boot_plan.specs.declared.limits.TheConstants.{MOST_RAM};
ghost use Rattle.program_edge.specs.Mistake.{BreaksNumber, IsMistake};

use crate::kind::{Kind, kind_of};
use crate::mistake::Mistake;
use crate::rule::Rule;
use crate::shape::{Shape, shape_of};
use boot_plan::{
    LEAST_ADDRESS, LEAST_RAM, LEAST_TEMP, MOST_END, MOST_FUEL, MOST_PAGES, MOST_RAM, MOST_TEMP,
    VOLUME_ALIGNMENT,
};
use line_words::number_of;
use pi_base::PAGE_LEN;

// The rule that the size of memory breaks.
fn size_rule(kind: Kind, size: u64) -> Option<Rule>
    ensures broken { IfSome result (BreaksNumber size) }
    ensures none { IfNone result (size ≤ MOST_RAM) }
{
    if size % PAGE_LEN != 0 {
        return Some(Rule::WholePages);
    }
    match kind {
        Kind::Ram if size < LEAST_RAM || size > MOST_RAM => Some(Rule::RamSize),
        Kind::Ram => None,
        _ if size < LEAST_TEMP || size > MOST_TEMP => Some(Rule::TempSize),
        _ => None,
    }
}

// The rule that the base of memory of such a size breaks.
fn base_rule(base: u64, size: u64) -> Option<Rule>
    requires { size ≤ MOST_RAM }
    ensures { IfSome result (BreaksNumber base) }
{
    if base % PAGE_LEN != 0 {
        Some(Rule::WholePages)
    } else if base < LEAST_ADDRESS {
        Some(Rule::LeastAddress)
    } else if base > MOST_END || base + size > MOST_END {
        Some(Rule::MostEnd)
    } else {
        None
    }
}

// The rule that a volume's base breaks.
fn volume_rule(base: u64) -> Option<Rule>
    ensures { IfSome result (BreaksNumber base) }
{
    if base % VOLUME_ALIGNMENT != 0 {
        Some(Rule::VolumeBase)
    } else if base < LEAST_ADDRESS {
        Some(Rule::LeastAddress)
    } else {
        None
    }
}

// The rule that the number of a line breaks which has one.
fn amount_rule(kind: Kind, number: u64) -> Option<Rule>
    ensures { IfSome result (BreaksNumber number) }
{
    match kind {
        Kind::Fuel if number < 1 || number > MOST_FUEL => Some(Rule::Fuel),
        Kind::Pages if number < 1 || number > MOST_PAGES => Some(Rule::PageRegion),
        Kind::Pages if number % PAGE_LEN != 0 => Some(Rule::WholePages),
        _ => None,
    }
}

// Which number of a line of three words passes which limit.
fn long_mistake<'a>(
    line: &'a [u8],
    first: &'a [u8],
    base: &'a [u8],
    last: &'a [u8],
) -> Option<Mistake<'a>>
    requires { words line.now ≡ first.now ∷ base.now ∷ last.now ∷ [] }
    ensures { IfSome result (IsMistake line.now) }
{
    let kind = kind_of(first)?;
    let number = number_of(base)?;
    if let Kind::Volume = kind {
        return Some(match volume_rule(number) {
            Some(rule) => Mistake { word: base, rule },
            None => Mistake {
                word: first,
                rule: Rule::MostVolumes,
            },
        });
    }
    let size = number_of(last)?;
    if let Some(rule) = size_rule(kind, size) {
        return Some(Mistake { word: last, rule });
    }
    let rule = base_rule(number, size)?;
    Some(Mistake { word: base, rule })
}

/// Which number of a line passes which limit.
pub(crate) fn limit_mistake(line: &[u8]) -> Option<Mistake<'_>>
    ensures { IfSome result (IsMistake line.now) }
{
    if let [b' ', ..] = line {
        return None;
    }
    match shape_of(line) {
        Shape::Two(first, word) => {
            let rule = amount_rule(kind_of(first)?, number_of(word)?)?;
            Some(Mistake { word, rule })
        }
        Shape::Three(first, base, last) => long_mistake(line, first, base, last),
        _ => None,
    }
}
