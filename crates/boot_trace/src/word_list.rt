//! The words of each line, put behind its keyword.
ghost use Rattle.std.specs.Prelude.{◌≡◌, ◌∷◌};
ghost use Rattle.pi_base.specs.WordText.{word_text};
ghost use Rattle.boot_io.specs.Sink.{Puts, SinkFaultsAfter};
ghost use Rattle.boot_model.specs.Text.{call_text, extra_words, line_text, words};
ghost use Rattle.boot_trace.specs.Pieces.{piece_texts};

use crate::fixed_word::{FixedWord, licence_word, reason_word, run_end_word};
use crate::gather::put_words;
use crate::keywords::keyword;
use crate::piece::Piece::{
    self, Byte, Bytes, Decimal, Expression, Hexadecimal, Name, Number, Text,
};
use crate::piece::{body, by, name, rank};
use boot_io::{Sink, SinkFault};
use boot_model::{CallName, Extra, Line};
use pi_base::Word;

// Puts a line by its words.
fn put_pieces<S: Sink>(sink: &mut S, line: &Line, pieces: &[Piece]) -> Result<(), SinkFault>
    requires { piece_texts pieces.now ≡ words line.now }
    ensures text { Puts result (S.text sink.old) (S.text sink.new) (line_text line.now) }
    ensures cause { SinkFaultsAfter result (S.faults sink.old) (S.faults sink.new) }
{
    put_words(sink, keyword(line), pieces)
}

// Puts the line of a service, its status, and what it shows behind it.
fn put_call<S: Sink>(
    sink: &mut S,
    line: &Line,
    name: CallName,
    status: Word,
    extra: &Extra,
) -> Result<(), SinkFault>
    requires { words line.now ≡ call_text name ∷ word_text status ∷ extra_words extra.now }
    ensures text { Puts result (S.text sink.old) (S.text sink.new) (line_text line.now) }
    ensures cause { SinkFaultsAfter result (S.faults sink.old) (S.faults sink.new) }
{
    let name = Text(name.word());
    let status = Text(status.text());
    match extra {
        Extra::Nothing => return put_pieces(sink, line, &[name, status]),
        Extra::Number(number) => return put_pieces(
            sink,
            line,
            &[name, status, Hexadecimal(*number)],
        ),
        Extra::Bytes(bytes) => return put_pieces(
            sink,
            line,
            &[name, status, Bytes(bytes.as_slice())],
        ),
    }
}

// Puts a line, its words in the order of its form.
pub(crate) fn put_form<S: Sink>(sink: &mut S, line: &Line) -> Result<(), SinkFault>
    ensures text { Puts result (S.text sink.old) (S.text sink.new) (line_text line.now) }
    ensures cause { SinkFaultsAfter result (S.faults sink.old) (S.faults sink.new) }
{
    match line {
        Line::PeiStop | Line::DxeStop | Line::RefusedUsage => return put_pieces(sink, line, &[]),
        Line::Report { volume: count }
        | Line::DxeVolume { volume: count }
        | Line::Ppis { count }
        | Line::Callbacks { count }
        | Line::Dispatches { count }
        | Line::Pendings { count }
        | Line::Hobs { count }
        | Line::Handles { count } => return put_pieces(sink, line, &[Number(*count)]),
        Line::PeiStart {
            volume,
            name,
            licence,
        }
        | Line::DxeStart {
            volume,
            name,
            licence,
        } => return put_pieces(
            sink,
            line,
            &[Number(*volume), Name(*name), Text(licence_word(*licence))],
        ),
        Line::NotifyCallback {
            volume,
            name,
            fired,
        }
        | Line::NotifyDispatch {
            volume,
            name,
            fired,
        }
        | Line::NotifyProtocol {
            volume,
            name,
            fired,
        } => return put_pieces(sink, line, &[Number(*volume), Name(*name), Name(*fired)]),
        Line::Waiting {
            volume,
            name,
            reason,
        } => return put_pieces(
            sink,
            line,
            &[Number(*volume), Name(*name), Text(reason_word(*reason))],
        ),
        Line::Call {
            name,
            status,
            extra,
        } => return put_call(sink, line, *name, *status, extra),
        Line::Log { text } => return put_pieces(sink, line, &[Text(text.as_slice())]),
        Line::RefusedFile { name } | Line::RefusedLong { name } => return put_pieces(
            sink,
            line,
            &[Text(name.as_slice())],
        ),
        Line::End { status } | Line::CoreInstall { status } => return put_pieces(
            sink,
            line,
            &[Text(status.text())],
        ),
        Line::Result { outcome } => return put_pieces(sink, line, &[Text(run_end_word(*outcome))]),
        Line::Migrate { from, to } => return put_pieces(
            sink,
            line,
            &[Hexadecimal(*from), Hexadecimal(*to)],
        ),
        Line::Handoff { address } => return put_pieces(sink, line, &[Hexadecimal(*address)]),
        Line::Ppi {
            by: maker,
            guid,
            value,
        } => return put_pieces(sink, line, &[by(*maker), Name(*guid), Hexadecimal(*value)]),
        Line::Handle {
            handle,
            guid,
            value,
        } => return put_pieces(
            sink,
            line,
            &[Number(*handle), Name(*guid), Hexadecimal(*value)],
        ),
        Line::Callback { guid, by, block }
        | Line::Dispatch { guid, by, block }
        | Line::Pending { guid, by, block } => return put_pieces(
            sink,
            line,
            &[Name(*guid), Number(*by), Number(*block)],
        ),
        Line::Hob { kind, body: bytes } => return put_pieces(
            sink,
            line,
            &[Number(u32::from(*kind)), body(bytes.as_slice())],
        ),
        Line::Volume {
            volume,
            base,
            len,
            name: volume_name,
        } => return put_pieces(
            sink,
            line,
            &[
                Number(*volume),
                Hexadecimal(*base),
                Decimal(*len),
                name(*volume_name),
            ],
        ),
        Line::Module {
            by,
            volume,
            name,
            kind,
            pei_rank,
            dxe_rank,
            pei,
            dxe,
        } => return put_pieces(
            sink,
            line,
            &[
                Number(*by),
                Number(*volume),
                Name(*name),
                Byte(*kind),
                rank(*pei_rank),
                rank(*dxe_rank),
                Expression(*pei),
                Expression(*dxe),
            ],
        ),
        Line::RefusedPlan {
            line: number,
            cause,
        } => return put_pieces(sink, line, &[Number(*number), Text(cause.word())]),
        Line::RefusedImage { volume, at, cause } => return put_pieces(
            sink,
            line,
            &[Number(*volume), Decimal(*at), Text(cause.word())],
        ),
    }
}
