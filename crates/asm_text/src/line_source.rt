// The text of a line as a source of operands.
use crate::front::behind;
use crate::list_reading::{MOST_BYTES, are_few, bytes, few_registers};
use crate::operand_reading::{block, guid, guid_arg, last, register, small, small_of};
use crate::word::{decimal_word, hexadecimal_word, kind_word, status_word, word};
use act_code::{Code, GuidArg, Source, Unread, are_printable, is_hob};
use pi_base::{Guid, Seq, Word};
use std::alloc::Global;

/// What is left of the line of an action, after its name.
#[derive(Drop)]
pub(crate) struct Line<'a> {
    pub(crate) code: Code,
    pub(crate) text: &'a [u8],
}

#[tactic(auto, using(crate::proofs::LineSources::fails_stops), unfolding(crate::specs::OperandReading::little_at, crate::specs::OperandReading::status_at, crate::specs::OperandReading::counted_at, crate::specs::OperandReading::text_at, crate::specs::OperandReading::registers_at, crate::specs::OperandReading::descriptor_at, crate::specs::OperandReading::hob_at))]
impl Source for Line<'_> {
    type Fault = Unread;

    ghost use Rattle.std.specs.Prelude.{ℕ, List};
    ghost use Rattle.act_code.specs.declared.code.Code.{Code};
    ghost use Rattle.act_code.specs.Reading.{cause_of};
    ghost use Rattle.asm_text.specs.OperandReading.{line_way};

    ghost Left = { Code × List ℕ };

    ghost left = { λ s. (s.code, s.text.now) };

    ghost Cause = { Unit {0} };

    ghost cause = { cause_of };

    ghost way = { line_way };

    fn register(self) -> Result<(u8, Self), Unread> {
        let code = self.code;
        let (value, text) = register(self.text)?;
        Ok((value, Line { code, text }))
    }

    fn block(self) -> Result<(u8, Self), Unread> {
        let code = self.code;
        let (value, text) = block(self.text)?;
        Ok((value, Line { code, text }))
    }

    fn byte(self) -> Result<(u8, Self), Unread> {
        let code = self.code;
        let (value, text) = small(self.text, 0, u8::MAX)?;
        Ok((value, Line { code, text }))
    }

    fn within(self, low: u8, high: u8) -> Result<(u8, Self), Unread> {
        let code = self.code;
        let (value, text) = small_of(self.code, self.text, low, high)?;
        Ok((value, Line { code, text }))
    }

    fn number_2(self) -> Result<(u16, Self), Unread> {
        let code = self.code;
        let (word, text) = word(self.text)?;
        let Some(n) = decimal_word(word) else {
            return Err(Unread::Malformed);
        };
        if n <= u64::from(u16::MAX) {
            Ok((n as u16, Line { code, text }))
        } else {
            Err(Unread::Malformed)
        }
    }

    fn number_4(self) -> Result<(u32, Self), Unread> {
        let code = self.code;
        let (word, text) = word(self.text)?;
        let Some(n) = hexadecimal_word(word) else {
            return Err(Unread::Malformed);
        };
        if n <= u64::from(u32::MAX) {
            Ok((n as u32, Line { code, text }))
        } else {
            Err(Unread::Malformed)
        }
    }

    fn number_8(self) -> Result<(u64, Self), Unread> {
        let code = self.code;
        let (word, text) = word(self.text)?;
        match hexadecimal_word(word) {
            Some(n) => Ok((n, Line { code, text })),
            None => Err(Unread::Malformed),
        }
    }

    fn guid(self) -> Result<(Guid, Self), Unread> {
        let code = self.code;
        let (value, text) = guid(self.text)?;
        Ok((value, Line { code, text }))
    }

    fn status(self) -> Result<(Word, Self), Unread> {
        let code = self.code;
        let (word, text) = word(self.text)?;
        match status_word(word) {
            Some(status) => Ok((status, Line { code, text })),
            None => Err(Unread::Malformed),
        }
    }

    fn counted(self, alloc: Global) -> Result<(Seq<u8>, Self), Unread> {
        let code = self.code;
        let (bytes, text) = bytes(alloc, self.text)?;
        if are_few(bytes.len(), MOST_BYTES) {
            Ok((bytes, Line { code, text }))
        } else {
            Err(Unread::Malformed)
        }
    }

    fn text(self, alloc: Global) -> Result<(Seq<u8>, Self), Unread> {
        let code = self.code;
        let Some(logged) = behind(self.text, b" ") else {
            return Err(Unread::Malformed);
        };
        if !are_few(logged.len(), MOST_BYTES) || !are_printable(logged) {
            return Err(Unread::Malformed);
        }
        let mut list = Seq::new(alloc);
        list.append(logged)?;
        Ok((list, Line { code, text: &[] }))
    }

    fn registers(self, alloc: Global) -> Result<(Seq<u8>, Self), Unread> {
        let code = self.code;
        let list = few_registers(alloc, self.text)?;
        if list.len() > 0 {
            Ok((list, Line { code, text: &[] }))
        } else {
            Err(Unread::Malformed)
        }
    }

    fn descriptor(self) -> Result<((u8, GuidArg, u8), Self), Unread> {
        let code = self.code;
        let (word, text) = word(self.text)?;
        let Some(kind) = kind_word(word) else {
            return Err(Unread::Malformed);
        };
        let (guid, text) = guid_arg(text)?;
        let (arg, text) = last(kind, text)?;
        Ok(((kind, guid, arg), Line { code, text }))
    }

    fn hob(self, alloc: Global) -> Result<((u8, Seq<u8>), Self), Unread> {
        let code = self.code;
        let (kind, text) = small(self.text, 0, u8::MAX)?;
        let (body, text) = bytes(alloc, text)?;
        if is_hob(kind, body.len()) {
            Ok(((kind, body), Line { code, text }))
        } else {
            Err(Unread::Malformed)
        }
    }
}
