// Descriptors are made and read.
ghost use Rattle.std.specs.Prelude.{◌≡◌, false};
ghost use Rattle.store_model.specs.Service.{OfEach, Performs, Present};
ghost use Rattle.store_model.specs.{Service.Descriptor.desc, Service.Reading.descriptor, StateFacts.IsDesc, StateFacts.IsNumberOf};
ghost use Rattle.heap_store.specs.NewDescriptor.{IsToMake};
ghost use Rattle.store_model.specs.StoreCall.{Anything};

use crate::store::HeapStore;
use pei_heap::links::read_descriptor;
use pi_base::{GUID_LEN, Guid};
use store_model::{Desc, DescKind, DescriptorBody, GuidFrom, StoreFault};

impl HeapStore {
    ghost use Rattle.heap_store.specs.HeapState.{StandsFor};

    // The descriptor to make. None where an address has no sixteen bytes in one volume.
    fn descriptor_from(&self, kind: DescKind, guid: GuidFrom, number: u64) -> Option<DescriptorBody>
        requires state { Present (StandsFor self.now) Anything }
        requires number { IsNumberOf kind number }
        ensures { OfEach (StandsFor self.now) Anything (λ s. IsToMake s kind guid number result) }
    {
        let address = match guid {
            GuidFrom::Inline(guid) => {
                return Some(DescriptorBody {
                    kind,
                    guid,
                    stands: None,
                    number,
                });
            }
            GuidFrom::At(address) => address,
        };
        match self.memory.read_rom(address, GUID_LEN) {
            Some(bytes) => Some(DescriptorBody {
                kind,
                guid: Guid::at(bytes, 0),
                stands: Some(address),
                number,
            }),
            None => None,
        }
    }

    /// A descriptor that nothing names yet.
    pub fn make_desc(
        &mut self,
        kind: DescKind,
        guid: GuidFrom,
        number: u64,
    ) -> Result<Desc, StoreFault>
        requires state { Present (StandsFor self.old) Anything }
        requires number { IsNumberOf kind number }
        ensures { Performs false (StandsFor self.old) (StandsFor self.new) (λ s. desc s kind guid number) result }
    {
        let d = match self.descriptor_from(kind, guid, number) {
            Some(d) => d,
            None => return Err(StoreFault::Bad),
        };
        match self.heap.descriptor(&mut self.memory, &d) {
            Some(made) => Ok(made),
            None => Err(StoreFault::Full),
        }
    }

    /// GUID and number of a descriptor.
    pub fn tell_descriptor(&self, d: Desc) -> (Guid, u64)
        requires { Present (StandsFor self.now) (λ s. IsDesc s d) }
        ensures { OfEach (StandsFor self.now) (λ s. IsDesc s d) (λ s. result ≡ descriptor s d) }
    {
        let told = read_descriptor(&self.heap, &self.memory, d);
        (told.guid, told.number)
    }
}
