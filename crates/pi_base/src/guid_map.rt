// Values by GUID.
ghost use Rattle.std.specs.Prelude.{◌≡◌, ◌<◌, ◌^◌, [], is_some, OnOk, OnErr};
ghost use Rattle.pi_base.specs.GuidMap.{value_of, spelled, IsPut};

use crate::field::little_endian;
use crate::guid::Guid;
use crate::memory::OutOfMemory;
use byteorder::{ByteOrder, LittleEndian};
use std::alloc::Global;
use std::collections::BTreeMap;
use std::marker::Model;

/// Values by GUID, at most one for each.
#[derive(Drop)]
pub struct GuidMap<V> {
    /// Keyed by the number that a GUID's bytes spell: two numbers compare in one step, two lists of bytes byte by byte.
    values: BTreeMap<u128, V, Global>,
}

impl<V> Model for GuidMap<V> {
    ghost use Rattle.std.specs.Prelude.{List};
    ghost use Rattle.pi_base.specs.declared.guid.Guid.{Guid};
    ghost use Rattle.pi_base.specs.Lists.{Each};
    ghost use Rattle.pi_base.specs.GuidMap.{entries_of, IsNumbered};

    ghost Value = { List (Guid × V) };

    ghost view = { λ m. entries_of m.values.entries };

    ghost invariant = { λ m. Each IsNumbered m.values.entries };
}

// The number that a GUID's sixteen bytes spell.
fn number_of(guid: &Guid) -> u128
    ensures spelled { spelled result ≡ guid.now }
    ensures fits { result < 256 ^ 16 }
{
    little_endian();
    let bytes = guid.0.as_slice();
    LittleEndian::read_u128(bytes)
}

impl<V: Copy> GuidMap<V> {
    /// An empty map. It allocates nothing.
    pub fn new(alloc: Global) -> GuidMap<V>
        ensures { result ≡ [] }
    {
        GuidMap {
            values: BTreeMap::new(alloc),
        }
    }

    /// The value of a GUID, if it has one.
    pub fn get(&self, guid: &Guid) -> Option<V>
        ensures { result ≡ value_of self.now guid.now }
    {
        let number = number_of(guid);
        self.values.get(&number).copied()
    }

    /// Whether a GUID has a value.
    pub fn contains_key(&self, guid: &Guid) -> bool
        ensures { result ≡ is_some (value_of self.now guid.now) }
    {
        self.get(guid).is_some()
    }

    /// Sets a GUID's value. An earlier value is replaced. If memory runs out, the map is unchanged.
    pub fn insert(&mut self, guid: Guid, value: V) -> Result<(), OutOfMemory>
        ensures ok { OnOk result (IsPut self.old guid value self.new) }
        ensures err { OnErr result (self.new ≡ self.old) }
    {
        let number = number_of(&guid);
        match self.values.insert(number, value) {
            Ok(_) => Ok(()),
            Err(_) => Err(OutOfMemory),
        }
    }
}
