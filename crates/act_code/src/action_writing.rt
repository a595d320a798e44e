// Writing actions: the one spelling of each.
ghost use Rattle.std.specs.Prelude.{◌≡◌, ◌<◌, ◌++◌, ◌∷◌, length, All, OnOk, flat_map};
ghost use Rattle.pi_base.specs.Field.{little_bytes};
ghost use Rattle.act_code.specs.Format.{spelled, HobBody, Descriptor};
ghost use Rattle.act_code.specs.{Operands.told, Operands.IsShort, Script.action_bytes, Script.IsWritable};

use crate::action::{Action, GuidArg};
use crate::action_operands::Operand;
use crate::operand::{GUID_FOLLOWS, REGISTER_FOLLOWS};
use pi_base::{Guid, OutOfMemory, Seq, put_u16, put_u32, put_u64};

/// The two bytes of a number.
pub fn bytes_2(n: u16) -> [u8; 2]
    ensures { result ≡ little_bytes 2 n }
{
    let mut field = [0; 2];
    put_u16(&mut field, 0, n);
    field
}

fn bytes_4(n: u32) -> [u8; 4]
    ensures { result ≡ little_bytes 4 n }
{
    let mut field = [0; 4];
    put_u32(&mut field, 0, n);
    field
}

fn bytes_8(n: u64) -> [u8; 8]
    ensures { result ≡ little_bytes 8 n }
{
    let mut field = [0; 8];
    put_u64(&mut field, 0, n);
    field
}

// Adds a list after its length.
fn put_list(out: &mut Seq<u8>, list: &Seq<u8>) -> Result<(), OutOfMemory>
    requires { length list.now < 256 }
    ensures { OnOk result (out.new ≡ out.old ++ (length list.now ∷ list.now)) }
{
    out.push(list.len() as u8)?;
    out.append(list.as_slice())
}

// Adds a descriptor's operands.
fn put_descriptor(out: &mut Seq<u8>, kind: u8, guid: &GuidArg, arg: u8) -> Result<(), OutOfMemory>
    ensures { OnOk result (out.new ≡ out.old ++ spelled Descriptor (kind, guid.now, arg)) }
{
    out.push(kind)?;
    match guid {
        GuidArg::Inline(guid) => {
            out.push(GUID_FOLLOWS)?;
            out.append(&guid.0)?;
            out.push(arg)
        }
        GuidArg::Register(v) => out.append(&[REGISTER_FOLLOWS, *v, arg]),
    }
}

// Adds a HOB's type, and its body after its length.
fn put_hob(out: &mut Seq<u8>, kind: u8, body: &Seq<u8>) -> Result<(), OutOfMemory>
    requires { length body.now < 65536 }
    ensures { OnOk result (out.new ≡ out.old ++ spelled HobBody (kind, body.now)) }
{
    out.push(kind)?;
    out.append(&bytes_2(body.len() as u16))?;
    out.append(body.as_slice())
}

// Adds an operand.
fn put_operand(out: &mut Seq<u8>, operand: &Operand<'_>) -> Result<(), OutOfMemory>
    requires { IsShort operand.now }
    ensures { OnOk result (out.new ≡ out.old ++ told spelled operand.now) }
{
    match *operand {
        Operand::Nothing => Ok(()),
        Operand::Register(n) | Operand::Block(n) | Operand::Byte(n) | Operand::Choice(n) => {
            out.push(n)
        }
        Operand::Number2(n) => out.append(&bytes_2(n)),
        Operand::Number4(n) => out.append(&bytes_4(n)),
        Operand::Number8(n) => out.append(&bytes_8(n)),
        Operand::Guid(guid) => out.append(&guid.0),
        Operand::Status(status) => out.push(status.number()),
        Operand::Counted(list) | Operand::Text(list) | Operand::Registers(list) => {
            put_list(out, list)
        }
        Operand::Descriptor(kind, guid, arg) => put_descriptor(out, kind, guid, arg),
        Operand::Hob(kind, body) => put_hob(out, kind, body),
    }
}

// Adds operands.
fn put_operands(out: &mut Seq<u8>, operands: &[Operand<'_>]) -> Result<(), OutOfMemory>
    requires { All IsShort operands.now }
    ensures { OnOk result (out.new ≡ out.old ++ flat_map (told spelled) operands.now) }
{
    for operand in operands {
        put_operand(out, operand)?;
    }
    Ok(())
}

/// Adds the bytes of an action.
pub fn put_action(out: &mut Seq<u8>, action: &Action) -> Result<(), OutOfMemory>
    requires { IsWritable action.now }
    ensures { OnOk result (out.new ≡ out.old ++ action_bytes action.now) }
{
    out.push(action.code().number())?;
    put_operands(out, &action.operands())
}
