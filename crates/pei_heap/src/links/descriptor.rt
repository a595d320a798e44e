// Descriptors. PI 1.8, volume 1, `EFI_PEI_PPI_DESCRIPTOR` and `EFI_PEI_NOTIFY_DESCRIPTOR`.
ghost use Rattle.std.specs.Prelude.{◌≡◌};
ghost use Rattle.store_model.specs.{StoreState.StoreState, StateFacts.IsDesc, HeapImage.heap_image, HeapImage.kind_flags};
ghost use Rattle.store_model.specs.declared.store_handle.DescKind.{DescKind as OfKind};
ghost use Rattle.store_model.specs.Service.Descriptor.{guid_at, kind_at, number_at};
ghost use Rattle.store_laws.specs.Descriptors.{guid_read};
ghost use Rattle.pei_heap.specs.{HeapMemory.IsHeapOf, DescRead.HasGuidAt, DescRead.IsReadAt};

use crate::{Heap, guid_in, word_in};
use phys_mem::PhysMem;
use pi_base::{GUID_LEN, Guid};
use store_laws::heap::{descriptors_read, image_facts};
use store_laws::{bodies_are_inside, states_fit};
use store_model::{Desc, DescKind};

/// The contents of a descriptor.
#[derive(Clone, Copy)]
pub struct DescRead {
    pub kind: DescKind,
    /// Its GUID, which is after it or in a volume.
    pub guid: Guid,
    /// A PPI's value, or a notification's entry.
    pub number: u64,
}

// The offset of a descriptor's pointer to its GUID.
const GUID_AT: usize = 8;

// The offset of its pointer to a PPI or of its entry.
const NUMBER_AT: usize = 16;

// The kind of a descriptor, by its flags.
fn kind_by(flags: u64) -> DescKind
    ensures { (kind : OfKind) → flags ≡ kind_flags kind → result ≡ kind }
{
    if flags == DescKind::Ppi.flags() {
        DescKind::Ppi
    } else if flags == DescKind::Callback.flags() {
        DescKind::Callback
    } else {
        DescKind::Dispatch
    }
}

// The GUID at an address, in the heap or in a volume.
fn read_guid(heap: &Heap, memory: &PhysMem, address: u64) -> Guid
    requires { (s : StoreState) × IsHeapOf heap.now memory.now s × HasGuidAt s address }
    ensures { (s : StoreState) → IsHeapOf heap.now memory.now s → HasGuidAt s address
        → result ≡ guid_read s.board.roms (heap_image s) s.base address }
{
    image_facts();
    if heap.span.contains(address, GUID_LEN as u64) {
        let offset = (address - heap.span.base) as usize;
        return guid_in(&heap.bytes(memory), offset);
    }
    match memory.read_rom(address, GUID_LEN) {
        Some(guid) => Guid::at(guid, 0),
        None => unreachable!(),
    }
}

/// The kind of the descriptor at an offset.
pub fn kind_of(heap: &Heap, memory: &PhysMem, d: Desc) -> DescKind
    requires { (s : StoreState) × IsHeapOf heap.now memory.now s × IsDesc s d }
    ensures { (s : StoreState) → IsHeapOf heap.now memory.now s → IsDesc s d → result ≡ kind_at s d.offset }
{
    bodies_are_inside();
    descriptors_read();
    image_facts();
    states_fit();
    kind_by(word_in(&heap.bytes(memory), d.offset as usize))
}

/// The GUID of the descriptor at an offset.
pub fn guid_of(heap: &Heap, memory: &PhysMem, d: Desc) -> Guid
    requires { (s : StoreState) × IsHeapOf heap.now memory.now s × IsDesc s d }
    ensures { (s : StoreState) → IsHeapOf heap.now memory.now s → IsDesc s d → result ≡ guid_at s d.offset }
{
    bodies_are_inside();
    descriptors_read();
    image_facts();
    states_fit();
    let address = word_in(&heap.bytes(memory), d.offset as usize + GUID_AT);
    read_guid(heap, memory, address)
}

/// The value of a PPI's descriptor, or the entry of a notification's.
pub fn number_of(heap: &Heap, memory: &PhysMem, d: Desc) -> u64
    requires { (s : StoreState) × IsHeapOf heap.now memory.now s × IsDesc s d }
    ensures { (s : StoreState) → IsHeapOf heap.now memory.now s → IsDesc s d → result ≡ number_at s d.offset }
{
    bodies_are_inside();
    descriptors_read();
    image_facts();
    states_fit();
    word_in(&heap.bytes(memory), d.offset as usize + NUMBER_AT)
}

/// Reads the descriptor at an offset.
pub fn read_descriptor(heap: &Heap, memory: &PhysMem, d: Desc) -> DescRead
    requires { (s : StoreState) × IsHeapOf heap.now memory.now s × IsDesc s d }
    ensures { (s : StoreState) → IsHeapOf heap.now memory.now s → IsDesc s d → IsReadAt s d.offset result }
{
    let kind = kind_of(heap, memory, d);
    let guid = guid_of(heap, memory, d);
    let number = number_of(heap, memory, d);
    DescRead { kind, guid, number }
}
