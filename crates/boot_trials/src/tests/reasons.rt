// A boot of four PEIMs and seven drivers, and its reasons as they were worked out by hand.
ghost use Rattle.boot_plan.specs.Range.{IsPlanInRange};

use super::text::{NOTHING, Text};
use super::{Case, Image, SMALLEST, VOLUME, are_of, images_of, plan_of, whole_text};
use boot_core::examine;
use boot_laws::{Before, Choice, Reached};
use boot_plan::Plan;
use boot_reasons::{Nowhere, explain_plan, explain_plan_by};
use explain_text::{Explained, put_explained};
use mod_catalog::{Catalog, MOST_MODULES};
use pi_base::{OutOfMemory, Seq};
use std::alloc::Global;
use std::process::Abort;
use std::test::*;

// PPI 21 is there after the first PEIM, PPI 22 never. Protocol 31 is driver 5's; 32, 33 and 34 are no module's.
static WHY: Case<'static> = Case {
    plan: b"temp 0x80000000 0x10000\nram 0x40000000 0x100000\nvolume 0xfff00000 boot.fv\n",
    images: &[Image {
        volume: Text {
            head: b"volume 4096

file peim 00000000-0000-0000-0000-00000000000a
script pei
    block
    set r0 1
    desc r1 ppi 00000000-0000-0000-0000-000000000021 r0
    install r1
    ret Success
end

file peim 00000000-0000-0000-0000-00000000000b
depex pei 00000000-0000-0000-0000-000000000021
script pei
    block
    set r0 0x40000000
    set r1 0x100000
    memory r0 r1
    set r2 0
    desc r3 ppi dxe-ipl-ppi r2
    install r3
    hob 5 0000f0ff000000000010000000000000
    ret Success
end

file peim 00000000-0000-0000-0000-00000000000c
depex pei 00000000-0000-0000-0000-000000000022

file peim 00000000-0000-0000-0000-00000000000d
depex pei (00000000-0000-0000-0000-000000000021 or 00000000-0000-0000-0000-000000000022)

file driver 00000000-0000-0000-0000-000000000011
depex dxe 00000000-0000-0000-0000-000000000031

file driver 00000000-0000-0000-0000-000000000012
depex dxe true
script dxe
    block
    set r0 7
    install new r1 00000000-0000-0000-0000-000000000031 r0
    ret Success
end

file driver 00000000-0000-0000-0000-000000000013
depex dxe before 00000000-0000-0000-0000-000000000011

file driver 00000000-0000-0000-0000-000000000014
depex dxe (00000000-0000-0000-0000-000000000032 and not 00000000-0000-0000-0000-000000000031)

file driver 00000000-0000-0000-0000-000000000015
depex dxe sor true

file driver 00000000-0000-0000-0000-000000000016

file driver 00000000-0000-0000-0000-000000000017
depex dxe (00000000-0000-0000-0000-000000000032 or (00000000-0000-0000-0000-000000000033 and 00000000-0000-0000-0000-000000000034))

end
",
            ..NOTHING
        },
        ..VOLUME
    }],
    ..SMALLEST
};

// The fourth PEIM starts for one of two PPIs. The third driver comes before the first one, and no earlier than the second has given that one its protocol.
static STARTS: &[u8] = b"start 0 pei absent
start 1 pei true
needed 1 00000000-0000-0000-0000-000000000021 0
start 3 pei true
needed 3 00000000-0000-0000-0000-000000000021 0
needed 3 00000000-0000-0000-0000-000000000022 -
start 5 dxe true
start 6 dxe before 4
start 4 dxe true
needed 4 00000000-0000-0000-0000-000000000031 5
";

// The same boot with the fourth PEIM before the second: it asks for nothing that the second gives.
static OTHER_STARTS: &[u8] = b"start 0 pei absent
start 3 pei true
needed 3 00000000-0000-0000-0000-000000000021 0
needed 3 00000000-0000-0000-0000-000000000022 -
start 1 pei true
needed 1 00000000-0000-0000-0000-000000000021 0
start 5 dxe true
start 6 dxe before 4
start 4 dxe true
needed 4 00000000-0000-0000-0000-000000000031 5
";

// A NOT needs a protocol to go; a driver with SOR is missing nothing but its request; one without an expression waits for all architectural
// protocols; one of two is fewer than two of three.
// After the move the HOB list has the hand-off HOB with 56 bytes, three descriptors with 48, three nodes with 40, the FV HOB with 24 and the end HOB with 8.
static WAITS: &[u8] = b"waits 2 pei false
lacks 2 00000000-0000-0000-0000-000000000022 -
would 2 00000000-0000-0000-0000-000000000022
waits 7 dxe false
lacks 7 00000000-0000-0000-0000-000000000032 -
has 7 00000000-0000-0000-0000-000000000031 5
would 7 00000000-0000-0000-0000-000000000032
unless 7 00000000-0000-0000-0000-000000000031
waits 8 dxe unrequested
would 8 -
waits 9 dxe absent
lacks 9 a46423e3-4617-49f1-b9ff-d1bfa9115839 -
lacks 9 26baccb1-6f42-11d4-bce7-0080c73c8881 -
lacks 9 26baccb2-6f42-11d4-bce7-0080c73c8881 -
lacks 9 26baccb3-6f42-11d4-bce7-0080c73c8881 -
lacks 9 665e3ff6-46cc-11d4-9a38-0090273fc14d -
lacks 9 665e3ff5-46cc-11d4-9a38-0090273fc14d -
lacks 9 b7dfb4e1-052f-449f-87be-9818fc91b733 -
lacks 9 1e5668e2-8481-11d4-bcf1-0080c73c8881 -
lacks 9 6441f818-6362-4e44-b570-7dba31dd2453 -
lacks 9 5053697e-2cbc-4819-90d9-0580deee5754 -
lacks 9 1da97072-bddc-4b30-99f1-72a0b56fff2a -
lacks 9 27cfac88-46cc-11d4-9a38-0090273fc14d -
lacks 9 27cfac87-46cc-11d4-9a38-0090273fc14d -
would 9 a46423e3-4617-49f1-b9ff-d1bfa9115839 26baccb1-6f42-11d4-bce7-0080c73c8881 26baccb2-6f42-11d4-bce7-0080c73c8881 26baccb3-6f42-11d4-bce7-0080c73c8881 665e3ff6-46cc-11d4-9a38-0090273fc14d 665e3ff5-46cc-11d4-9a38-0090273fc14d b7dfb4e1-052f-449f-87be-9818fc91b733 1e5668e2-8481-11d4-bcf1-0080c73c8881 6441f818-6362-4e44-b570-7dba31dd2453 5053697e-2cbc-4819-90d9-0580deee5754 1da97072-bddc-4b30-99f1-72a0b56fff2a 27cfac88-46cc-11d4-9a38-0090273fc14d 27cfac87-46cc-11d4-9a38-0090273fc14d
waits 10 dxe false
lacks 10 00000000-0000-0000-0000-000000000032 -
lacks 10 00000000-0000-0000-0000-000000000033 -
lacks 10 00000000-0000-0000-0000-000000000034 -
would 10 00000000-0000-0000-0000-000000000032
moved 0x80000000 0x40000000
heap moved 352
heap end 352
fuel 15
result Done
";

// The fourth PEIM before the second, and no more starts than so many.
#[derive(Drop)]
struct FourthEarly {
    most: u64,
}

impl Choice<Nowhere> for FourthEarly {
    ghost use Rattle.std.specs.Prelude.{◌≡◌, ◌==◌, if◌then◌else◌, Some, None, nat_lt, true, false};

    ghost rules = { λ choice. record {
      peims = λ sink before named. named ≡ (if before.starts == 1 then Some 3 else None);
      lets_in_pei = λ before number. true;
      drivers = λ sink before named. named ≡ None;
      lets_in_dxe = λ before number. nat_lt before.starts choice.most;
      wants_turn = false;
    } };

    fn wants_turn(&self) -> bool {
        false
    }

    fn peim(&self, _sink: &Nowhere, before: Before) -> Option<u32> {
        if before.starts == 1 { Some(3) } else { None }
    }

    fn driver(&self, _sink: &Nowhere, _before: Before) -> Option<u32> {
        None
    }

    fn lets_peim(&self, _before: Before, _number: u32) -> bool {
        true
    }

    fn lets_driver(&self, before: Before, _number: u32) -> bool {
        before.starts < self.most
    }
}

fn lines_of(rt: &impl Abort, alloc: Global, catalog: &Catalog, told: &Explained) -> Seq<u8> {
    assert!(rt; catalog.modules.len() <= MOST_MODULES);
    let mut lines = Seq::new(alloc);
    assert!(rt; put_explained(alloc, &mut lines, catalog, told).is_ok());
    lines
}

// The lines of the machine's own boot, or of the one in the other order with no more starts than so many; or the number of the module before
// whose start that one is left.
fn explained(rt: &impl Abort, alloc: Global, plan: &Plan, most: Option<u64>) -> Result<Seq<u8>, u32>
    requires { IsPlanInRange plan.now }
{
    let images = images_of(rt, alloc, &WHY);
    assert!(rt; are_of(plan, images.as_slice()));
    let Ok(catalog) = examine(alloc, plan, images.as_slice()) else {
        panic!(rt; "images without a fault");
    };
    let reached = match most {
        Some(most) => explain_plan_by(alloc, plan, &catalog, images, &FourthEarly { most }),
        None => match explain_plan(alloc, plan, &catalog, images) {
            Ok(told) => Ok(Reached::End(told)),
            Err(OutOfMemory) => Err(OutOfMemory),
        },
    };
    match reached {
        Ok(Reached::End(told)) => Ok(lines_of(rt, alloc, &catalog, &told)),
        Ok(Reached::Barred(number)) => Err(number),
        Err(OutOfMemory) => panic!(rt; "ample memory"),
    }
}

// The number of the module before whose start a boot is left. None if it comes to its end with these starts.
fn left_at(
    rt: &impl Abort,
    alloc: Global,
    plan: &Plan,
    most: Option<u64>,
    starts: &[u8],
) -> Option<u32>
    requires { IsPlanInRange plan.now }
{
    let want = Text {
        head: starts,
        tail: WAITS,
        ..NOTHING
    };
    let want = whole_text(rt, alloc, &want);
    match explained(rt, alloc, plan, most) {
        Ok(lines) => {
            assert!(rt; lines.as_slice() == want.as_slice());
            None
        }
        Err(number) => Some(number),
    }
}

// With one start fewer, the boot in the other order is left before the first driver. That driver is scheduled together with the third, and is not allowed
// either.
#[test]
fn a_boot_tells_why_each_module_starts_or_waits_and_is_left_before_one_that_is_not_let(
    rt: HostRuntime,
) {
    let plan = plan_of(&rt, rt.alloc(), WHY.plan);
    assert!(rt; left_at(&rt, rt.alloc(), &plan, None, STARTS).is_none());
    assert!(rt; left_at(&rt, rt.alloc(), &plan, Some(6), OTHER_STARTS).is_none());
    assert!(rt; left_at(&rt, rt.alloc(), &plan, Some(5), OTHER_STARTS) == Some(4));
    drop(plan);
}
