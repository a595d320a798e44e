// The text of a line behind the name of its action.
ghost use Rattle.std.specs.Prelude.{◌≡◌};
ghost use Rattle.source_words.specs.Line.{unindented, behind_blank};

/// The line without the blanks at its front.
pub(crate) fn unindented(line: &[u8]) -> &[u8]
    ensures { result.now ≡ unindented line.now }
{
    let mut rest = line;
    'blanks: while let [b' ' | b'\t', after @ ..] = rest {
        rest = after;
    }
    rest
}

/// The text without its first byte, where that is a blank.
pub(crate) fn behind_blank(text: &[u8]) -> &[u8]
    ensures { result.now ≡ behind_blank text.now }
{
    match text {
        [b' ' | b'\t', after @ ..] => after,
        whole => whole,
    }
}
