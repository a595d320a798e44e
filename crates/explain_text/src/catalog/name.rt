// The code units of a name.
ghost use Rattle.std.specs.Prelude.{◌≡◌, ◌==◌, ◌+◌, ◌*◌, option_map};
ghost use Rattle.pi_base.specs.Field.{words_of};
ghost use Rattle.explain_text.specs.Name.{before_null};

// Whether two bytes are the null.
fn is_null(low: u8, high: u8) -> bool
    ensures { result ≡ (low + 256 * high == 0) }
{
    low == 0 && high == 0
}

/// The code units before the first null, two bytes each. None where there is no null.
pub(crate) fn name_in(text: &[u8]) -> Option<&[u8]>
    ensures { option_map (λ name. words_of name.now) result ≡ before_null (words_of text.now) }
{
    let mut rest = text;
    'units: while let [low, high, after @ ..] = rest {
        if is_null(*low, *high) {
            let (name, _) = text.split_at(text.len() - rest.len());
            return Some(name);
        }
        rest = after;
    }
    None
}
