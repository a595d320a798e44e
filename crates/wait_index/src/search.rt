// The first place of one or two sets, from a place on.
ghost use Rattle.std.specs.Prelude.{◌≡◌, ◌≤◌, ◌+◌, ◌*◌, ◌<◌, ℕ, true, false, length};
ghost use Rattle.wait_index.specs.PlaceFlags.{flag, either, AreMarked, IsFirst};

/// How many places the sets have room for.
pub const MOST_PLACES: usize = 4096;

/// How many places a block has.
pub(crate) const BLOCK: usize = 64;

/// How many blocks there are.
pub(crate) const BLOCKS: usize = 64;

// Whether a flag is set.
pub(crate) fn flag(flags: &[bool], at: usize) -> bool
    ensures { result ≡ flag flags.now at }
{
    match flags.get(at) {
        Some(set) => *set,
        None => false,
    }
}

// Whether a place is in the set, or in the other if both are asked.
pub(crate) fn in_either(flags: &[bool], more: &[bool], both: bool, at: usize) -> bool
    ensures { result ≡ either both flags.now more.now at }
{
    flag(flags, at) || both && flag(more, at)
}

// The first place from one on that is in the set, or in the other if both are asked. A block that is not marked is skipped.
pub(crate) fn first_in(
    flags: &[bool],
    blocks: &[bool],
    more: &[bool],
    more_blocks: &[bool],
    both: bool,
    from: usize,
) -> Option<usize>
    requires marked { AreMarked flags.now blocks.now }
    requires more_marked { AreMarked more.now more_blocks.now }
    requires as_long { length more.now ≡ length flags.now }
    requires few { length flags.now ≤ MOST_PLACES }
    ensures { IsFirst (either both flags.now more.now) from result }
{
    let mut at = from;
    'places: while at < flags.len() {
        let block = at / BLOCK;
        if !in_either(blocks, more_blocks, both, block) {
            at = (block + 1) * BLOCK;
        } else if in_either(flags, more, both, at) {
            return Some(at);
        } else {
            at += 1;
        }
    }
    None
}

// Whether no place of a block is in the set. The last place comes first, since places are mostly taken out in order.
pub(crate) fn is_empty(flags: &[bool], block: usize) -> bool
    requires { block < BLOCKS }
    ensures { result ≡ true → (place : ℕ) → block * BLOCK ≤ place → place < block * BLOCK + BLOCK → flag flags.now place ≡ false }
{
    let mut left = BLOCK;
    'places: while left > 0 {
        left -= 1;
        if flag(flags, block * BLOCK + left) {
            return false;
        }
    }
    true
}
