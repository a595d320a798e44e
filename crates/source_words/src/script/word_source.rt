// The words of a line as a source of operands.
use crate::script::fault::{LineFault, Stop};
use crate::script::list::{MOST_BYTES, are_few, few_registers};
use crate::script::operand::{block, guid, guid_arg, last, register, small, small_of};
use crate::script::word::{bytes, kind_of, status_of, word};
use act_code::{Code, GuidArg, Source, is_hob};
use line_words::number_of;
use pi_base::{Guid, Seq, Word};
use std::alloc::Global;

/// What is left of the line of an action, behind its name.
#[derive(Drop)]
pub(crate) struct Words<'a> {
    pub(crate) code: Code,
    pub(crate) text: &'a [u8],
}

#[tactic(auto, using(crate::proofs::WordSources::stops_too), unfolding(crate::specs::Operands::little_at, crate::specs::Operands::status_at, crate::specs::Operands::counted_at, crate::specs::Operands::registers_at, crate::specs::Operands::descriptor_at, crate::specs::Operands::hob_at))]
impl Source for Words<'_> {
    type Fault = Stop;

    ghost use Rattle.std.specs.Prelude.{ℕ, List};
    ghost use Rattle.act_code.specs.declared.code.Code.{Code};
    ghost use Rattle.source_words.specs.Words.{words};
    ghost use Rattle.source_words.specs.declared.script.fault.LineFault.{LineFault};
    ghost use Rattle.source_words.specs.Reading.{cause_of};
    ghost use Rattle.source_words.specs.Operands.{word_way};

    ghost Left = { Code × List (List ℕ) };

    ghost left = { λ s. (s.code, words s.text.now) };

    ghost Cause = { LineFault };

    ghost cause = { cause_of };

    ghost way = { word_way };

    fn register(self) -> Result<(u8, Self), Stop> {
        let code = self.code;
        let (value, text) = register(self.text)?;
        Ok((value, Words { code, text }))
    }

    fn block(self) -> Result<(u8, Self), Stop> {
        let code = self.code;
        let (value, text) = block(self.text)?;
        Ok((value, Words { code, text }))
    }

    fn byte(self) -> Result<(u8, Self), Stop> {
        let code = self.code;
        let (value, text) = small(self.text, 0, u8::MAX)?;
        Ok((value, Words { code, text }))
    }

    fn within(self, low: u8, high: u8) -> Result<(u8, Self), Stop> {
        let code = self.code;
        let (value, text) = small_of(self.code, self.text, low, high)?;
        Ok((value, Words { code, text }))
    }

    fn number_2(self) -> Result<(u16, Self), Stop> {
        let code = self.code;
        let (word, text) = word(self.text)?;
        let Some(n) = number_of(word) else {
            return Err(Stop::Fault(LineFault::Number));
        };
        if n <= u64::from(u16::MAX) {
            Ok((n as u16, Words { code, text }))
        } else {
            Err(Stop::Fault(LineFault::Range))
        }
    }

    fn number_4(self) -> Result<(u32, Self), Stop> {
        let code = self.code;
        let (word, text) = word(self.text)?;
        let Some(n) = number_of(word) else {
            return Err(Stop::Fault(LineFault::Number));
        };
        if n <= u64::from(u32::MAX) {
            Ok((n as u32, Words { code, text }))
        } else {
            Err(Stop::Fault(LineFault::Range))
        }
    }

    fn number_8(self) -> Result<(u64, Self), Stop> {
        let code = self.code;
        let (word, text) = word(self.text)?;
        match number_of(word) {
            Some(n) => Ok((n, Words { code, text })),
            None => Err(Stop::Fault(LineFault::Number)),
        }
    }

    fn guid(self) -> Result<(Guid, Self), Stop> {
        let code = self.code;
        let (value, text) = guid(self.text)?;
        Ok((value, Words { code, text }))
    }

    fn status(self) -> Result<(Word, Self), Stop> {
        let code = self.code;
        let (word, text) = word(self.text)?;
        match status_of(word) {
            Some(status) => Ok((status, Words { code, text })),
            None => Err(Stop::Fault(LineFault::Status)),
        }
    }

    fn counted(self, alloc: Global) -> Result<(Seq<u8>, Self), Stop> {
        let code = self.code;
        let (bytes, text) = bytes(alloc, self.text)?;
        if are_few(bytes.len(), MOST_BYTES) {
            Ok((bytes, Words { code, text }))
        } else {
            Err(Stop::Fault(LineFault::Range))
        }
    }

    // A text is no list of words.
    fn text(self, _alloc: Global) -> Result<(Seq<u8>, Self), Stop> {
        Err(Stop::Fault(LineFault::Log))
    }

    fn registers(self, alloc: Global) -> Result<(Seq<u8>, Self), Stop> {
        let code = self.code;
        let list = few_registers(alloc, self.text)?;
        if list.len() > 0 {
            Ok((list, Words { code, text: &[] }))
        } else {
            Err(Stop::Fault(LineFault::Missing))
        }
    }

    fn descriptor(self) -> Result<((u8, GuidArg, u8), Self), Stop> {
        let code = self.code;
        let (word, text) = word(self.text)?;
        let Some(kind) = kind_of(word) else {
            return Err(Stop::Fault(LineFault::Word));
        };
        let (guid, text) = guid_arg(text)?;
        let (arg, text) = last(kind, text)?;
        Ok(((kind, guid, arg), Words { code, text }))
    }

    fn hob(self, alloc: Global) -> Result<((u8, Seq<u8>), Self), Stop> {
        let code = self.code;
        let (kind, text) = small(self.text, 0, u8::MAX)?;
        let (body, text) = bytes(alloc, text)?;
        if is_hob(kind, body.len()) {
            Ok(((kind, body), Words { code, text }))
        } else {
            Err(Stop::Fault(LineFault::Hob))
        }
    }
}
