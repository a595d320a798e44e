// The bytes that are left, as a source of operands.
use crate::action::GuidArg;
use crate::operand::{
    self, MOST_BYTES, MOST_REGISTERS, Unread, are_printable, byte, byte_within, bytes_of, counted,
    guid_arg, is_hob, number_2,
};
use crate::source::Source;
use pi_base::{Guid, Seq, Word, u32_at, u64_at};
use std::alloc::Global;

#[tactic(auto, using(crate::proofs::Sources::given, crate::proofs::Sources::fails_stops), unfolding(crate::specs::Reading::little_at, crate::specs::Reading::word_at, crate::specs::Reading::text_at, crate::specs::Reading::descriptor_at, crate::specs::Reading::hob_at))]
impl Source for &[u8] {
    type Fault = Unread;

    ghost use Rattle.std.specs.Prelude.{ℕ, List};
    ghost use Rattle.act_code.specs.Reading.{cause_of, byte_way};

    ghost Left = { List ℕ };

    ghost left = { λ s. s.now };

    ghost Cause = { Unit {0} };

    ghost cause = { cause_of };

    ghost way = { byte_way };

    fn register(self) -> Result<(u8, Self), Unread> {
        byte(self)
    }

    fn block(self) -> Result<(u8, Self), Unread> {
        byte(self)
    }

    fn byte(self) -> Result<(u8, Self), Unread> {
        byte(self)
    }

    fn within(self, low: u8, high: u8) -> Result<(u8, Self), Unread> {
        byte_within(self, low, high)
    }

    fn number_2(self) -> Result<(u16, Self), Unread> {
        number_2(self)
    }

    fn number_4(self) -> Result<(u32, Self), Unread> {
        if self.len() < 4 {
            return Err(Unread::Malformed);
        }
        Ok((u32_at(self, 0), &self[4..]))
    }

    fn number_8(self) -> Result<(u64, Self), Unread> {
        if self.len() < 8 {
            return Err(Unread::Malformed);
        }
        Ok((u64_at(self, 0), &self[8..]))
    }

    fn guid(self) -> Result<(Guid, Self), Unread> {
        operand::guid(self)
    }

    fn status(self) -> Result<(Word, Self), Unread> {
        let (number, rest) = byte(self)?;
        match Word::from_number(number) {
            Some(word) => Ok((word, rest)),
            None => Err(Unread::Malformed),
        }
    }

    fn counted(self, alloc: Global) -> Result<(Seq<u8>, Self), Unread> {
        counted(alloc, self, MOST_BYTES)
    }

    fn text(self, alloc: Global) -> Result<(Seq<u8>, Self), Unread> {
        let (text, rest) = counted(alloc, self, MOST_BYTES)?;
        if are_printable(text.as_slice()) {
            Ok((text, rest))
        } else {
            Err(Unread::Malformed)
        }
    }

    fn registers(self, alloc: Global) -> Result<(Seq<u8>, Self), Unread> {
        counted(alloc, self, MOST_REGISTERS)
    }

    fn descriptor(self) -> Result<((u8, GuidArg, u8), Self), Unread> {
        let (kind, rest) = byte_within(self, 0, 2)?;
        let (guid, rest) = guid_arg(rest)?;
        let (arg, rest) = byte(rest)?;
        Ok(((kind, guid, arg), rest))
    }

    fn hob(self, alloc: Global) -> Result<((u8, Seq<u8>), Self), Unread> {
        let (kind, rest) = byte(self)?;
        let (length, rest) = number_2(rest)?;
        let (body, rest) = bytes_of(alloc, length as usize, rest)?;
        if is_hob(kind, length as usize) {
            Ok(((kind, body), rest))
        } else {
            Err(Unread::Malformed)
        }
    }
}
