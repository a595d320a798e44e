// Descriptors are made and looked up.
ghost use Rattle.std.specs.Prelude.{◌≡◌, ◌+◌, ◌<◌, true, take, sum_by, length, option_map, IfSome, IfNone, is_some, unwrap_or, None};
ghost use Rattle.store_model.specs.StoreState.{body_at, handoff_len, header_len, hob_len};
ghost use Rattle.pi_base.specs.Guids.{same_guid};
ghost use Rattle.store_model.specs.{MemoryReading.rom_bytes, Service.Answers};
ghost use Rattle.store_model.specs.Service.Descriptor.{desc, guid_from, descriptor_at, guid_at, number_at, kind_at, no_guid};
ghost use Rattle.phys_mem.specs.Region.{part_of};
ghost use Rattle.store_laws.specs.Keeping.{IsWholeGuid};

use crate::length::{HANDOFF_LEN, HEADER_LEN, descriptor_len};
use crate::plain_hob::{PlainBody, PlainHob};
use crate::store::PlainStore;
use hob_codec::kind::POOL;
use phys_mem::Rom;
use pi_base::{GUID_LEN, Guid};
use store_model::{Desc, DescKind, DescriptorBody, GuidFrom, StoreFault};

// The bytes of a descriptor's GUID, or no bytes.
fn guid_bytes(found: &Option<DescriptorBody>) -> &[u8]
    ensures { result.now ≡ (unwrap_or (option_map (λ d. d.guid) found.now) no_guid).0 }
{
    match found {
        Some(d) => d.guid.0.as_slice(),
        None => &[],
    }
}

// The bytes at an address, if all of them are in this stretch.
fn part_of(base: u64, bytes: &[u8], at: u64, n: usize) -> Option<&[u8]>
    ensures part { option_map (λ part. part.now) result ≡ part_of base bytes.now at n }
    ensures len { IfSome result (λ part. length part.now ≡ n) }
{
    let len = bytes.len() as u64;
    if at < base || at - base > len || n as u64 > len - (at - base) {
        return None;
    }
    let start = (at - base) as usize;
    Some(&bytes[start..start + n])
}

// The `n` bytes at an address, if one volume has all of them.
pub(crate) fn rom_bytes(roms: &[Rom], at: u64, n: usize) -> Option<&[u8]>
    ensures bytes { option_map (λ bytes. bytes.now) result ≡ rom_bytes roms.now at n }
    ensures len { IfSome result (λ bytes. length bytes.now ≡ n) }
{
    'volumes: for rom in roms {
        if let Some(bytes) = part_of(rom.base, rom.bytes.as_slice(), at, n) {
            return Some(bytes);
        }
    }
    None
}

impl PlainStore {
    ghost use Rattle.store_plain.specs.PlainState.{state_of};

    // The GUID, and its address if it is in a volume.
    fn guid_from(&self, guid: GuidFrom) -> Option<(Guid, Option<u64>)>
        ensures found { result ≡ guid_from (state_of self.now) guid }
        ensures whole { IsWholeGuid guid }
    {
        let address = match guid {
            GuidFrom::Inline(guid) => return Some((guid, None)),
            GuidFrom::At(address) => address,
        };
        let bytes = rom_bytes(self.roms.as_slice(), address, GUID_LEN)?;
        let mut guid = [0u8; GUID_LEN];
        guid.copy_from_slice(bytes);
        Some((Guid(guid), Some(address)))
    }

    // A descriptor that nothing names yet.
    pub(crate) fn make_desc(
        &mut self,
        kind: DescKind,
        guid: GuidFrom,
        number: u64,
    ) -> Result<Desc, StoreFault>
        ensures answer { Answers true (desc (state_of self.old) kind guid number) (state_of self.old) result (state_of self.new) }
        ensures whole { IsWholeGuid guid }
    {
        let Some((guid, stands)) = self.guid_from(guid) else {
            return Err(StoreFault::Bad);
        };
        if self.free() < descriptor_len(stands) + HEADER_LEN {
            return Err(StoreFault::Full);
        }
        let offset = self.end + HEADER_LEN;
        let body = DescriptorBody {
            kind,
            guid,
            stands,
            number,
        };
        self.put_behind(PlainHob::new(POOL, PlainBody::Descriptor(body)))?;
        Ok(Desc { offset })
    }

    // The number of the HOB whose body is at a place.
    #[tactic(auto, using(crate::proofs::Rest::part_of_rest))]
    pub(crate) fn index_of(&self, place: u64) -> Option<usize>
        ensures inside { IfSome result (λ i. i < length self.now.hobs.items) }
        ensures here { IfSome result (λ i. handoff_len + sum_by hob_len (take i self.now.hobs.items) + header_len ≡ place) }
        ensures none { IfNone result (body_at (state_of self.now) place ≡ None) }
    {
        let mut at = HANDOFF_LEN;
        'hobs: for i in 0..self.hobs.len() {
            if at + HEADER_LEN == place {
                return Some(i);
            }
            at += self.hobs[i].len() as u64;
        }
        None
    }

    // What the descriptor at a place says.
    #[tactic(auto, using(crate::proofs::Rest::part_of_rest))]
    pub(crate) fn descriptor_at(&self, place: u64) -> Option<DescriptorBody>
        ensures { result ≡ descriptor_at (state_of self.now) place }
    {
        let mut at = HANDOFF_LEN;
        'hobs: for hob in self.hobs.as_slice() {
            if at + HEADER_LEN == place {
                return hob.descriptor();
            }
            at += hob.len() as u64;
        }
        None
    }

    // Its GUID.
    pub(crate) fn guid_at(&self, place: u64) -> Guid
        requires { is_some (descriptor_at (state_of self.now) place) ≡ true }
        ensures { result ≡ guid_at (state_of self.now) place }
    {
        match self.descriptor_at(place) {
            Some(d) => d.guid,
            None => unreachable!(),
        }
    }

    // Its kind, or that of a dispatch notification if there is no descriptor.
    pub(crate) fn kind_at(&self, place: u64) -> DescKind
        ensures { result ≡ kind_at (state_of self.now) place }
    {
        match self.descriptor_at(place) {
            Some(d) => d.kind,
            None => DescKind::Dispatch,
        }
    }

    // Its number, or 0 if there is no descriptor.
    pub(crate) fn number_at(&self, place: u64) -> u64
        ensures { result ≡ number_at (state_of self.now) place }
    {
        match self.descriptor_at(place) {
            Some(d) => d.number,
            None => 0,
        }
    }

    // Whether the descriptor at a place has the GUID.
    pub(crate) fn has_guid_at(&self, place: u64, guid: &Guid) -> bool
        ensures { result ≡ same_guid (guid_at (state_of self.now) place) guid.now }
    {
        let found = self.descriptor_at(place);
        guid_bytes(&found) == guid.0.as_slice()
    }

    // Whether the descriptors at two places have one GUID.
    pub(crate) fn have_one_guid(&self, a: u64, b: u64) -> bool
        ensures { result ≡ same_guid (guid_at (state_of self.now) a) (guid_at (state_of self.now) b) }
    {
        let first = self.descriptor_at(a);
        let second = self.descriptor_at(b);
        guid_bytes(&first) == guid_bytes(&second)
    }
}
