// Lines that are gathered into a text.
ghost use Rattle.std.specs.Prelude.{◌≡◌, ◌++◌, ◌∷◌, [], flat_map, OnOk};
ghost use Rattle.boot_io.specs.Line.{line_of, spaced, words_now};
ghost use Rattle.explain_text.specs.Fronts.{front_of};

use pi_base::{OutOfMemory, Seq};

const SPACE: u8 = b' ';

const LINE_FEED: u8 = b'\n';

/// Adds a word behind a space.
pub fn put_word(out: &mut Seq<u8>, word: &[u8]) -> Result<(), OutOfMemory>
    ensures { OnOk result (out.new ≡ out.old ++ spaced word.now) }
{
    out.push(SPACE)?;
    out.append(word)
}

// Adds words, each behind a space.
fn put_words(out: &mut Seq<u8>, words: &[&[u8]]) -> Result<(), OutOfMemory>
    ensures { OnOk result (out.new ≡ out.old ++ flat_map spaced (words_now words.now)) }
{
    'words: for word in words {
        put_word(out, word)?;
    }
    Ok(())
}

/// Adds a keyword and words, the front of a line.
pub fn put_front(out: &mut Seq<u8>, keyword: &[u8], words: &[&[u8]]) -> Result<(), OutOfMemory>
    ensures { OnOk result (out.new ≡ out.old ++ front_of keyword.now (words_now words.now)) }
{
    out.append(keyword)?;
    put_words(out, words)
}

/// Ends a line.
pub fn end_line(out: &mut Seq<u8>) -> Result<(), OutOfMemory>
    ensures { OnOk result (out.new ≡ out.old ++ 10 ∷ []) }
{
    out.push(LINE_FEED)
}

/// Adds the line of a keyword and words.
pub fn put_line(out: &mut Seq<u8>, keyword: &[u8], words: &[&[u8]]) -> Result<(), OutOfMemory>
    ensures { OnOk result (out.new ≡ out.old ++ line_of keyword.now (words_now words.now)) }
{
    put_front(out, keyword, words)?;
    end_line(out)
}
