// The volumes that become known one after the other. What PPIs report needs a whole store, and is tested over whole boots.
ghost use Rattle.mod_catalog.specs.WellFormed.{IsWellFormed};

use crate::catalogues::{BASE, NESTED_BASE, OTHER_BASE, TWO, catalogue};
use mod_catalog::Catalog;
use phase_parts::VolumeList;
use std::process::Abort;
use std::test::*;

/// A volume with two nested in it, the first of which has one nested in it.
static NEST: &str = "volume 4096
file volume-image 00000000-0000-0000-0000-00000000000a
volume 512
    file volume-image 00000000-0000-0000-0000-00000000000b
    volume 72
    end
end
volume 72
end
end
";

/// A volume without files.
static EMPTY: &str = "volume 72\nend\n";

/// The base of the deepest nested volume, 100 bytes after that of the volume around it, and of the second one, after 512 bytes and the header of its section.
const DEEPEST: u64 = NESTED_BASE + 100;

const SECOND: u64 = NESTED_BASE + 516;

// What is known after the volumes at these bases.
fn discovered(catalog: &Catalog, bases: &[u64]) -> VolumeList
    requires { IsWellFormed catalog.now }
{
    let mut list = VolumeList::new();
    list.discover(catalog, bases);
    list
}

// Bases, and what is known then.
static BASES: [(&[u64], &[u32]); 4] = [
    (&[], &[]),
    // At the first volume's second byte no volume is mapped.
    (&[BASE + 1, OTHER_BASE], &[4]),
    (&[SECOND, BASE], &[3, 0, 1, 2]),
    (&[DEEPEST, OTHER_BASE, DEEPEST, NESTED_BASE], &[2, 4, 1]),
];

fn try_bases(rt: &impl Abort, catalog: &Catalog)
    requires { IsWellFormed catalog.now }
{
    'rows: for (bases, want) in &BASES {
        assert!(rt; discovered(catalog, bases).as_slice() == *want);
    }
}

#[test]
fn volumes_are_discovered_base_by_base_with_those_nested_in_them(rt: HostRuntime) {
    let catalog = catalogue(&rt, rt.alloc(), TWO, &[NEST, EMPTY]);
    try_bases(&rt, &catalog);
    drop(catalog);
}
