// HOB lists that describe memory.
use crate::hob_rows::Row::*;
use hob_codec::kind::END;
use hob_codec::{Handoff, Hob, encode_into, hob_len};
use pi_base::Guid;
use std::alloc::Global;

/// A HOB after the hand-off: one from which a map is made, with its type, base and length, or one that is ignored.
#[derive(Clone, Copy)]
pub(crate) enum Row {
    Cpu(u8),
    Resource(u32, u64, u64),
    Allocation(u64, u64),
    Named,
    Pool,
}

const NAME: Guid = Guid([0; 16]);

const NOTHING: [u8; 16] = [0; 16];

fn hob_of(row: &Row) -> Hob<'static> {
    match *row {
        Cpu(memory) => Hob::Cpu { memory, io: 16 },
        Resource(kind, start, length) => Hob::Resource {
            owner: NAME,
            kind,
            attributes: 0,
            start,
            length,
        },
        Allocation(base, length) => Hob::Allocation {
            name: NAME,
            base,
            length,
            memory_type: 0,
        },
        Named => Hob::Named {
            name: NAME,
            body: b"",
        },
        Pool => Hob::Pool { body: &NOTHING },
    }
}

// Adds a HOB's bytes. If memory runs out they are missing, and the test fails for it.
fn put_hob(alloc: Global, bytes: &mut Vec<u8>, hob: &Hob<'_>) {
    let Some(len) = hob_len(hob) else {
        return;
    };
    if let Ok(mut out) = vec![in alloc; 0u8; len as usize] {
        encode_into(hob, out.as_mut_slice());
        let _ = bytes.extend_from_slice(&out);
    }
}

const HANDOFF: Hob<'static> = Hob::Handoff(Handoff {
    boot_mode: 0,
    top: 0,
    bottom: 0,
    free_top: 0,
    free_bottom: 0,
    end: 0,
});

const LAST: Hob<'static> = Hob::Other {
    kind: END,
    body: b"",
};

/// A hand-off, these HOBs, and an end.
pub(crate) fn hob_list(alloc: Global, rows: &[Row]) -> Vec<u8> {
    let mut bytes = Vec::new(alloc);
    put_hob(alloc, &mut bytes, &HANDOFF);
    for row in rows {
        put_hob(alloc, &mut bytes, &hob_of(row));
    }
    put_hob(alloc, &mut bytes, &LAST);
    bytes
}
