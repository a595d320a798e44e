// What the lines of a boot show that no status says.
ghost use Rattle.std.specs.Prelude.{◌≡◌, ◌==◌, [], None, Some, MatchOption, option_copied, length};
ghost use Rattle.std.specs.List.{filter};
ghost use Rattle.line_words.specs.Line.{lines};
ghost use Rattle.program_edge.specs.BootStory.{count_behind, drivers_in, first_behind, is_discovered, is_discovery, is_refusal, last_start, lost_drivers, refusal_behind};

use crate::noted_volumes::NotedVolume;
use line_words::{first_line, number_of};
use pi_base::Seq;

// How the line of a discovered volume begins.
const DISCOVERY: &[u8] = b"dxe volume ";

/// What follows `front` in the first line of a text that begins with it. None if no line does.
#[tactic(auto, using(crate::proofs::Stories::front_here, crate::proofs::Stories::front_later, crate::proofs::Stories::no_lines))]
pub fn first_behind<'a>(text: &'a [u8], front: &[u8]) -> Option<&'a [u8]>
    ensures { option_copied result ≡ first_behind front.now (lines text.now) }
{
    let mut rest = text;
    'lines: while !rest.is_empty() {
        let (line, after) = first_line(rest);
        if line.starts_with(front) {
            return line.get(front.len()..);
        }
        rest = after;
    }
    None
}

/// How many lines of a text begin with `front`.
#[tactic(auto, using(crate::proofs::Stories::one_more, crate::proofs::Stories::no_lines))]
pub fn count_behind(text: &[u8], front: &[u8]) -> usize
    ensures { result ≡ count_behind front.now (lines text.now) }
{
    let mut count = 0;
    let mut rest = text;
    'lines: while !rest.is_empty() {
        let (line, after) = first_line(rest);
        if line.starts_with(front) {
            count += 1;
        }
        rest = after;
    }
    count
}

/// The first refused `memory` of a boot.
#[derive(Clone, Copy)]
pub struct RefusedMemory<'a> {
    /// The line of the last start before it, or nothing.
    pub start: &'a [u8],
    /// Its own line.
    pub line: &'a [u8],
}

// Whether a line says that `memory` was refused.
fn is_refusal(line: &[u8]) -> bool
    ensures { result ≡ is_refusal line.now }
{
    line.starts_with(b"call memory ".as_slice())
        && !line.starts_with(b"call memory Success".as_slice())
}

// The last start, with one line more.
fn last_start<'a>(start: &'a [u8], line: &'a [u8]) -> &'a [u8]
    ensures { result.now ≡ last_start start.now line.now }
{
    if line.starts_with(b"pei start ".as_slice()) {
        line
    } else {
        start
    }
}

/// The first refused `memory` that the text of a boot shows. None if there is none.
#[tactic(auto, using(crate::proofs::Stories::refused_here, crate::proofs::Stories::refused_later, crate::proofs::Stories::no_lines))]
pub fn refused_memory(text: &[u8]) -> Option<RefusedMemory<'_>>
    ensures { MatchOption result (refusal_behind [] (lines text.now) ≡ None)
        (λ refused. refusal_behind [] (lines text.now) ≡ Some (refused.start.now, refused.line.now)) }
{
    let mut start: &[u8] = &[];
    let mut rest = text;
    'lines: while !rest.is_empty() {
        let (line, after) = first_line(rest);
        if is_refusal(line) {
            return Some(RefusedMemory { start, line });
        }
        start = last_start(start, line);
        rest = after;
    }
    None
}

// Whether a line says that DXE discovered a volume.
fn is_discovery(volume: u32, line: &[u8]) -> bool
    ensures { result ≡ is_discovery volume line.now }
{
    if !line.starts_with(DISCOVERY) {
        return false;
    }
    match line.get(DISCOVERY.len()..) {
        Some(word) => match number_of(word) {
            Some(number) => number == u64::from(volume),
            None => false,
        },
        None => false,
    }
}

// Whether the text of a boot shows that DXE discovered a volume.
#[tactic(auto, using(crate::proofs::Stories::discovered_here, crate::proofs::Stories::discovered_later, crate::proofs::Stories::no_lines))]
fn is_discovered(text: &[u8], volume: u32) -> bool
    ensures { result ≡ is_discovered volume (lines text.now) }
{
    let mut rest = text;
    'lines: while !rest.is_empty() {
        let (line, after) = first_line(rest);
        if is_discovery(volume, line) {
            return true;
        }
        rest = after;
    }
    false
}

// How many numbers are this one.
fn count_equal(numbers: &Seq<u32>, sought: u32) -> usize
    ensures { result ≡ length (filter (λ number. number == sought) numbers.now) }
{
    numbers
        .as_slice()
        .iter()
        .filter(|number| **number == sought)
        .count()
}

// How many drivers a volume has.
fn drivers_in(volumes: &[NotedVolume], volume: u32) -> usize
    ensures { result ≡ drivers_in volumes.now volume }
{
    let mut number = volume;
    let mut rest = volumes;
    'volumes: while let [first, after @ ..] = rest {
        if number < first.count {
            return count_equal(&first.drivers, number);
        }
        number -= first.count;
        rest = after;
    }
    0
}

/// How many drivers a volume has that DXE never discovered, by the text of its boot: none if it discovered the volume.
pub fn lost_drivers(volumes: &[NotedVolume], text: &[u8], volume: u32) -> usize
    ensures { result ≡ lost_drivers volumes.now (lines text.now) volume }
{
    let drivers = drivers_in(volumes, volume);
    if drivers == 0 || is_discovered(text, volume) {
        0
    } else {
        drivers
    }
}
