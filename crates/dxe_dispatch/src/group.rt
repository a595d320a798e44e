//! The group of an eligible driver: those BEFORE it with their groups, the driver, and those AFTER it with theirs.
ghost use Rattle.std.specs.Prelude.{◌≡◌, ◌≤◌, ◌++◌, map, filter, reverse, OnOk, IfOk, length};
ghost use Rattle.mod_catalog.specs.declared.limits.TheConstants.{MOST_MODULES};
ghost use Rattle.boot_model.specs.{DxeMachine.DxeMachine, DxeChoice.companion_group};
ghost use Rattle.boot_laws.specs.GroupUnfolds.{IsRoot};
ghost use Rattle.dxe_dispatch.specs.Choosing.{HaveWaiting, TakesItem, unfolded};
ghost use Rattle.dxe_dispatch.specs.{Queue.waits_at, declared.group.Item.TheVariants.Group};

use crate::waits::waits_at;
use dxe_core::DriverOrder;
use mod_catalog::Catalog;
use phase_parts::name_of;
use pi_base::{OutOfMemory, Seq};
use std::alloc::Global;

/// What has still to be put into a group.
#[derive(Clone, Copy)]
pub(crate) enum Item {
    /// The group of a driver.
    Group(u32),
    /// A driver alone.
    Driver(u32),
}

// Puts those of these drivers that wait on the stack, with their groups.
fn push_waiting(stack: &mut Seq<Item>, numbers: &[u32], waits: &[bool]) -> Result<(), OutOfMemory>
    ensures { OnOk result (stack.new ≡ stack.old ++ map Group (filter (waits_at waits.now) numbers.now)) }
{
    'numbers: for number in numbers {
        if waits_at(waits, *number) {
            stack.push(Item::Group(*number))?;
        }
    }
    Ok(())
}

// Puts a driver on the stack, with the groups of its companions. Companions come with the first driver of the name that they give.
fn push_group(
    stack: &mut Seq<Item>,
    catalog: &Catalog,
    order: &DriverOrder,
    waits: &[bool],
    number: u32,
) -> Result<(), OutOfMemory>
    ensures { OnOk result (stack.new ≡ stack.old ++ unfolded catalog.now order.now waits.now number) }
{
    let name = name_of(catalog, number);
    if order.named(&name) != Some(number) {
        return stack.push(Item::Driver(number));
    }
    push_waiting(stack, order.befores(&name), waits)?;
    stack.push(Item::Driver(number))?;
    push_waiting(stack, order.afters(&name), waits)
}

// Takes an item that has left the stack.
fn take_item(
    stack: &mut Seq<Item>,
    group: &mut Seq<u32>,
    catalog: &Catalog,
    order: &DriverOrder,
    waits: &[bool],
    item: Item,
) -> Result<(), OutOfMemory>
    ensures { OnOk result (TakesItem (unfolded catalog.now order.now waits.now) stack.old group.old item stack.new group.new) }
{
    match item {
        Item::Driver(number) => group.push(number),
        Item::Group(number) => push_group(stack, catalog, order, waits, number),
    }
}

/// The group of an eligible driver that waits, last driver first. It is walked with a stack, the last item of which is the last of the group: each driver is met twice, once for its companions and once for itself.
pub(crate) fn backward_group(
    alloc: Global,
    catalog: &Catalog,
    order: &DriverOrder,
    waits: &[bool],
    root: u32,
) -> Result<Seq<u32>, OutOfMemory>
    requires few { length catalog.now.modules ≤ MOST_MODULES }
    ensures { (m : DxeMachine) → HaveWaiting catalog.now m order.now waits.now → IsRoot catalog.now m root
        → IfOk result (λ group. reverse group ≡ companion_group catalog.now m root) }
{
    let mut group = Seq::new(alloc);
    let mut stack = Seq::new(alloc);
    stack.push(Item::Group(root))?;
    'turns: for _ in 0..2 * catalog.modules.len() {
        match stack.pop() {
            Some(item) => take_item(&mut stack, &mut group, catalog, order, waits, item)?,
            None => return Ok(group),
        }
    }
    Ok(group)
}
