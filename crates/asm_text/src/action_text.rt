// Actions as lines.
ghost use Rattle.std.specs.Prelude.{◌≡◌, ◌==◌, if◌then◌else◌, ◌++◌, ◌∷◌, [], map, flat_map, decimal, OnOk};
ghost use Rattle.hex.specs.Hex.{encode_lower};
ghost use Rattle.pi_base.specs.WordText.{hexadecimal};
ghost use Rattle.asm_text.specs.{Numerals.register, ScriptText.action_line};
ghost use Rattle.act_code.specs.Operands.{told};
ghost use Rattle.asm_text.specs.ActionText.{spaced, small_number, kind_word, guid_words, block_words, last_words, operand_text, operand_words};

use act_code::descriptor_kind::{CALLBACK, PPI};
use act_code::{Action, Code, GuidArg, Operand, operand_by_operand};
use line_words::printed::LINE_FEED;
use pi_base::{DECIMAL_LEN, HEXADECIMAL_LEN, OutOfMemory, Seq, decimal, hexadecimal};

// Adds some bytes, and a number in decimal.
fn put_decimal(out: &mut Seq<u8>, front: &[u8], n: u64) -> Result<(), OutOfMemory>
    ensures { OnOk result (out.new ≡ out.old ++ (front.now ++ decimal n)) }
{
    let mut digits = [0u8; DECIMAL_LEN];
    let len = decimal(n, &mut digits);
    let (text, _) = digits.split_at(len);
    out.append(front)?;
    out.append(text)
}

// Adds a space, and a number in hexadecimal.
fn put_hexadecimal(out: &mut Seq<u8>, n: u64) -> Result<(), OutOfMemory>
    ensures { OnOk result (out.new ≡ out.old ++ (32 ∷ hexadecimal n)) }
{
    let mut digits = [0u8; HEXADECIMAL_LEN];
    let len = hexadecimal(n, &mut digits);
    let (text, _) = digits.split_at(len);
    put_word(out, text)
}

// Adds a space, and bytes in hexadecimal.
fn put_bytes(out: &mut Seq<u8>, bytes: &[u8]) -> Result<(), OutOfMemory>
    ensures { OnOk result (out.new ≡ out.old ++ (32 ∷ encode_lower bytes.now)) }
{
    match hex::encode(out.alloc(), bytes) {
        Ok(text) => put_word(out, text.as_bytes()),
        Err(_) => Err(OutOfMemory),
    }
}

// Adds a space, and a word.
fn put_word(out: &mut Seq<u8>, word: &[u8]) -> Result<(), OutOfMemory>
    ensures { OnOk result (out.new ≡ out.old ++ (32 ∷ word.now)) }
{
    out.append(b" ")?;
    out.append(word)
}

// Adds registers, each after a space.
fn put_registers(out: &mut Seq<u8>, registers: &[u8]) -> Result<(), OutOfMemory>
    ensures { OnOk result (out.new ≡ out.old ++ flat_map spaced (map register registers.now)) }
{
    for register in registers {
        put_decimal(out, b" r", u64::from(*register))?;
    }
    Ok(())
}

// One of two words, by a form.
fn either(form: u8, zero: &'static [u8], other: &'static [u8]) -> &'static [u8]
    ensures { result.now ≡ if form == 0 then zero.now else other.now }
{
    if form == 0 { zero } else { other }
}

// What a descriptor is of.
fn kind_word(kind: u8) -> &'static [u8]
    ensures { result.now ≡ kind_word kind }
{
    match kind {
        PPI => b"ppi",
        CALLBACK => b"callback",
        _ => b"dispatch",
    }
}

// Adds a GUID, or the register with its address.
fn put_guid(out: &mut Seq<u8>, guid: &GuidArg) -> Result<(), OutOfMemory>
    ensures { OnOk result (out.new ≡ out.old ++ flat_map spaced (guid_words guid.now)) }
{
    match guid {
        GuidArg::Inline(guid) => put_word(out, &guid.to_text()),
        GuidArg::Register(v) => put_decimal(out, b" at r", u64::from(*v)),
    }
}

// Adds a block.
fn put_block(out: &mut Seq<u8>, block: u8) -> Result<(), OutOfMemory>
    ensures { OnOk result (out.new ≡ out.old ++ flat_map spaced (block_words block)) }
{
    put_decimal(out, b" block ", u64::from(block))
}

// Adds a descriptor's last operand.
fn put_last(out: &mut Seq<u8>, kind: u8, arg: u8) -> Result<(), OutOfMemory>
    ensures { OnOk result (out.new ≡ out.old ++ flat_map spaced (last_words kind arg)) }
{
    if kind == PPI {
        put_decimal(out, b" r", u64::from(arg))
    } else {
        put_block(out, arg)
    }
}

// Adds a small number, in decimal or as the word that it is for the action of a code.
fn put_small(out: &mut Seq<u8>, code: Code, n: u8) -> Result<(), OutOfMemory>
    ensures { OnOk result (out.new ≡ out.old ++ spaced (small_number code n)) }
{
    match code {
        Code::BootMode => put_word(out, either(n, b"get", b"set")),
        Code::DxeInstall => put_word(out, either(n, b"new", b"on")),
        _ => put_decimal(out, b" ", u64::from(n)),
    }
}

// Adds what a descriptor is of, its GUID and its last operand.
fn put_descriptor(out: &mut Seq<u8>, kind: u8, guid: &GuidArg, arg: u8) -> Result<(), OutOfMemory>
    ensures { OnOk result (out.new
        ≡ out.old ++ (spaced (kind_word kind) ++ (flat_map spaced (guid_words guid.now) ++ flat_map spaced (last_words kind arg)))) }
{
    put_word(out, kind_word(kind))?;
    put_guid(out, guid)?;
    put_last(out, kind, arg)
}

// Adds the type of a HOB and its body.
fn put_hob(out: &mut Seq<u8>, kind: u8, body: &[u8]) -> Result<(), OutOfMemory>
    ensures { OnOk result (out.new ≡ out.old ++ flat_map spaced (decimal kind ∷ encode_lower body.now ∷ [])) }
{
    put_decimal(out, b" ", u64::from(kind))?;
    put_bytes(out, body)
}

// Adds an operand of the action of a code, each of its words after a space.
fn put_operand(out: &mut Seq<u8>, code: Code, operand: &Operand<'_>) -> Result<(), OutOfMemory>
    ensures { OnOk result (out.new ≡ out.old ++ told (operand_text code) operand.now) }
{
    match operand {
        Operand::Nothing => Ok(()),
        Operand::Register(r) => put_decimal(out, b" r", u64::from(*r)),
        Operand::Block(block) => put_block(out, *block),
        Operand::Byte(n) => put_decimal(out, b" ", u64::from(*n)),
        Operand::Choice(n) => put_small(out, code, *n),
        Operand::Number2(n) => put_decimal(out, b" ", u64::from(*n)),
        Operand::Number4(n) => put_hexadecimal(out, u64::from(*n)),
        Operand::Number8(n) => put_hexadecimal(out, *n),
        Operand::Guid(guid) => put_word(out, &guid.to_text()),
        Operand::Status(status) => put_word(out, status.text()),
        Operand::Counted(bytes) => put_bytes(out, bytes.as_slice()),
        Operand::Text(text) => put_word(out, text.as_slice()),
        Operand::Registers(list) => put_registers(out, list.as_slice()),
        Operand::Descriptor(kind, guid, arg) => put_descriptor(out, *kind, guid, *arg),
        Operand::Hob(kind, body) => put_hob(out, *kind, body.as_slice()),
    }
}

// Adds operands, each word after a space.
fn put_operands(out: &mut Seq<u8>, code: Code, operands: &[Operand<'_>]) -> Result<(), OutOfMemory>
    ensures { OnOk result (out.new ≡ out.old ++ flat_map (told (operand_text code)) operands.now) }
{
    for operand in operands {
        put_operand(out, code, operand)?;
    }
    Ok(())
}

// Adds the operands of an action.
fn put_operands_of(out: &mut Seq<u8>, action: &Action) -> Result<(), OutOfMemory>
    ensures { OnOk result (out.new ≡ out.old ++ flat_map spaced (operand_words action.now)) }
{
    operand_by_operand();
    put_operands(out, action.code(), &action.operands())
}

/// Adds the line of an action, as in the text of a script.
pub fn put_action(out: &mut Seq<u8>, action: &Action) -> Result<(), OutOfMemory>
    ensures { OnOk result (out.new ≡ out.old ++ action_line action.now) }
{
    out.append(action.code().name())?;
    put_operands_of(out, action)?;
    out.push(LINE_FEED)
}
