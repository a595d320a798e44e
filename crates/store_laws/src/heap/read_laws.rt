//! What is read from the image.
ghost use Rattle.store_laws.specs.Chain.{DescriptorIsRead, ListsAreShort, NextIsRead, NodesAreInside, NumberIsRead, SecondIsRead};
ghost use Rattle.store_laws.specs.Descriptors.{AddressesAreRead, FlagsAreRead, GuidsAreRead, NumbersAreRead};
ghost use Rattle.store_laws.specs.Front.{BootModesAreRead, EndsAreRead, FreeBottomsAreRead, FreeIsRead, FreeTopsAreRead};
ghost use Rattle.store_laws.specs.{Hobs.HobPlacesAreInside, Hobs.HobsAreTold, Volumes.VolumesAreTold, Walk.ChainsAreLists};

use pi_base::little_endian;

/// What is read from the hand-off HOB.
pub fn handoff_read()
    ensures boot_mode { BootModesAreRead }
    ensures free_top { FreeTopsAreRead }
    ensures free_bottom { FreeBottomsAreRead }
    ensures end { EndsAreRead }
    ensures free { FreeIsRead }
{
    little_endian();
}

/// What is read from the nodes of a list, and that the linked nodes are those of the list.
pub fn nodes_read()
    ensures next { NextIsRead }
    ensures descriptor { DescriptorIsRead }
    ensures second { SecondIsRead }
    ensures number { NumberIsRead }
    ensures inside { NodesAreInside }
    ensures chains { ChainsAreLists }
    ensures short { ListsAreShort }
{
    little_endian();
}

/// What is read from a descriptor.
pub fn descriptors_read()
    ensures flags { FlagsAreRead }
    ensures address { AddressesAreRead }
    ensures guid { GuidsAreRead }
    ensures number { NumbersAreRead }
{
    little_endian();
}

/// What is read from the headers of HOBs.
pub fn hobs_told()
    ensures header { HobsAreTold }
    ensures inside { HobPlacesAreInside }
    ensures volumes { VolumesAreTold }
{
    little_endian();
}
