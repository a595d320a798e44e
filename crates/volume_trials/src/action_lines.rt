// Lines of actions as people write them: the line that `asm` reads as the same action, and each refusal.
use act_code::{Action, Script};
use asm_text::print_script;
use pi_base::{OutOfMemory, Phase, Seq};
use source_words::script::{LineFault, Stop, read_action};
use std::alloc::Global;
use std::test::*;

/// Lines of a phase, and each one's text in `asm`.
static LINES: [(Phase, &str, &str); 33] = [
    (Phase::Pei, "set r0 7", "set r0 0x7"),
    (
        Phase::Pei,
        "\tadd\tr15  0xFFffffffffffffff ",
        "add r15 0xffffffffffffffff",
    ),
    (Phase::Pei, "pool r1 4294967295", "pool r1 0xffffffff"),
    (Phase::Pei, "store r2 0 AA bb0c", "store r2 0x0 aabb0c"),
    (Phase::Pei, "addr r3 r4 16", "addr r3 r4 0x10"),
    (Phase::Pei, "peek r1 0x40", "peek r1 64"),
    (
        Phase::Pei,
        "desc r1 ppi {49EDB1C1-BF21-4761-BB12-EB0031AABB39} r0",
        "desc r1 ppi 49edb1c1-bf21-4761-bb12-eb0031aabb39 r0",
    ),
    (
        Phase::Pei,
        "desc r1 Callback memory-ppi block 63",
        "desc r1 callback f894643d-c449-42d1-8ea8-85bdd8c65bde block 63",
    ),
    (
        Phase::Pei,
        "desc r1 dispatch at r2 Block 0x1",
        "desc r1 dispatch at r2 block 1",
    ),
    (
        Phase::Pei,
        "install r1 r2 r3 r4 r5 r6 r7 r8",
        "install r1 r2 r3 r4 r5 r6 r7 r8",
    ),
    (Phase::Pei, "reinstall r1 r2", "reinstall r1 r2"),
    (Phase::Pei, "notify r9", "notify r9"),
    (
        Phase::Pei,
        "locate r1 r2 dxe-ipl-ppi 65535",
        "locate r1 r2 0ae8ce5d-e448-4437-a8d7-ebf5f194f731 65535",
    ),
    (
        Phase::Pei,
        "hob 6 24 10 000000000000",
        "hob 6 2410000000000000",
    ),
    (Phase::Pei, "memory r2 r3", "memory r2 r3"),
    (Phase::Pei, "pages r1 4 0x2", "pages r1 4 0x2"),
    (Phase::Pei, "boot_mode GET r1", "boot_mode get r1"),
    (Phase::Pei, "boot_mode set r1", "boot_mode set r1"),
    (Phase::Pei, "\tlog\t two  words ", "log  two  words "),
    (Phase::Pei, "skip_if 0 255", "skip_if 0 255"),
    (Phase::Pei, "ret success", "ret Success"),
    (Phase::Pei, "ret AccessDenied", "ret AccessDenied"),
    (Phase::Pei, "shadow", "shadow"),
    (Phase::Pei, "set r00 0", "set r0 0x0"),
    // a text of 64 bytes
    (
        Phase::Pei,
        "log 0123456789012345678901234567890123456789012345678901234567890123",
        "log 0123456789012345678901234567890123456789012345678901234567890123",
    ),
    (
        Phase::Dxe,
        "install new r1 ffs2 r2",
        "install new r1 8c8ce578-8a3d-4f1c-9935-896185c32dd3 r2",
    ),
    (
        Phase::Dxe,
        "reinstall r1 ffs3 r2 r3",
        "reinstall r1 5473c07a-3dcb-4dca-bd6f-1e9689e7349a r2 r3",
    ),
    (
        Phase::Dxe,
        "uninstall r1 dxe-apriori r2",
        "uninstall r1 fc510ee7-ffdc-11d4-bd41-0080c73c8881 r2",
    ),
    (
        Phase::Dxe,
        "locate r1 r2 pei-apriori",
        "locate r1 r2 1b45cc0a-156a-428a-af62-49864da0e6e6",
    ),
    (
        Phase::Dxe,
        "notify volume-info-ppi block 2",
        "notify 49edb1c1-bf21-4761-bb12-eb0031aabb39 block 2",
    ),
    (
        Phase::Dxe,
        "schedule 26BACCB1-6F42-11D4-BCE7-0080C73C8881",
        "schedule 26baccb1-6f42-11d4-bce7-0080c73c8881",
    ),
    (Phase::Dxe, "process r1", "process r1"),
    (Phase::Dxe, "dispatch", "dispatch"),
];

// The text in `asm` of the script of one block with the action that a line says.
fn text_of(alloc: Global, phase: Phase, line: &str) -> Option<Seq<u8>> {
    let action = read_action(alloc, phase, line.as_bytes()).ok()?;
    let mut actions: Seq<Action> = Seq::new(alloc);
    actions.push(action).ok()?;
    let mut blocks = Seq::new(alloc);
    blocks.push(actions).ok()?;
    print_script(alloc, &Script { phase, blocks }).ok()
}

// The same text, by the action's own line.
fn wanted(alloc: Global, phase: Phase, line: &str) -> Result<Seq<u8>, OutOfMemory> {
    let mut text = Seq::new(alloc);
    match phase {
        Phase::Pei => text.append(b"phase pei\nblock\n")?,
        Phase::Dxe => text.append(b"phase dxe\nblock\n")?,
    }
    text.append(line.as_bytes())?;
    text.push(b'\n')?;
    Ok(text)
}

// Whether a line says the action of a line of `asm`.
fn says(alloc: Global, phase: Phase, line: &str, asm: &str) -> bool {
    match (text_of(alloc, phase, line), wanted(alloc, phase, asm)) {
        (Some(text), Ok(wanted)) => text.as_slice() == wanted.as_slice(),
        _ => false,
    }
}

#[test]
fn lines_say_the_actions_that_asm_reads(rt: HostRuntime) {
    for (phase, line, asm) in &LINES {
        assert!(rt; says(rt.alloc(), *phase, line, asm));
    }
}

/// Lines that are no action of a phase, and why.
static REFUSED: [(Phase, &str, LineFault); 38] = [
    (Phase::Pei, "", LineFault::Missing),
    (Phase::Pei, "logg hello", LineFault::UnknownAction),
    (Phase::Pei, "SET r0 1", LineFault::UnknownAction),
    (Phase::Pei, "schedule memory-ppi", LineFault::OtherPhase),
    (Phase::Pei, "process r1", LineFault::OtherPhase),
    (Phase::Pei, "set r0", LineFault::Missing),
    (Phase::Pei, "set r16 1", LineFault::Register),
    (Phase::Pei, "set 0 1", LineFault::Register),
    (Phase::Pei, "set r 1", LineFault::Register),
    (Phase::Pei, "set r0 1_000", LineFault::Number),
    (Phase::Pei, "set r0 -7", LineFault::Number),
    (Phase::Pei, "set r0 18446744073709551616", LineFault::Number),
    (Phase::Pei, "set r0 1 2", LineFault::Extra),
    (Phase::Pei, "pool r0 4294967296", LineFault::Range),
    (Phase::Pei, "peek r0 0", LineFault::Range),
    (Phase::Pei, "peek r0 65", LineFault::Range),
    (Phase::Pei, "skip_if 2 1", LineFault::Range),
    (Phase::Pei, "skip_if 0 256", LineFault::Range),
    (Phase::Pei, "pages r0 256 1", LineFault::Range),
    (Phase::Pei, "desc r0 ppi gEfiPei r1", LineFault::Guid),
    (Phase::Pei, "desc r0 event memory-ppi r1", LineFault::Word),
    (Phase::Pei, "desc r0 callback memory-ppi 1", LineFault::Word),
    (
        Phase::Pei,
        "desc r0 callback memory-ppi block 64",
        LineFault::Range,
    ),
    (Phase::Pei, "boot_mode put r1", LineFault::Word),
    (Phase::Pei, "ret Good", LineFault::Status),
    (Phase::Pei, "store r0 0 abc", LineFault::Bytes),
    (Phase::Pei, "store r0 0 xy", LineFault::Bytes),
    (Phase::Pei, "store r0 0", LineFault::Range),
    (Phase::Pei, "hob 2 00", LineFault::Hob),
    (Phase::Pei, "hob 6 00", LineFault::Hob),
    (Phase::Pei, "log", LineFault::Log),
    (Phase::Pei, "log ", LineFault::Log),
    (Phase::Pei, "log a\tb", LineFault::Log),
    (Phase::Pei, "log \u{fc}", LineFault::Log),
    (Phase::Pei, "install", LineFault::Missing),
    (
        Phase::Pei,
        "install r1 r2 r3 r4 r5 r6 r7 r8 r9",
        LineFault::Extra,
    ),
    (
        Phase::Pei,
        "log 01234567890123456789012345678901234567890123456789012345678901234",
        LineFault::Log,
    ),
    (Phase::Dxe, "pool r0 8", LineFault::OtherPhase),
];

// Whether a line is refused for a reason.
fn is_refused(alloc: Global, phase: Phase, line: &str, why: LineFault) -> bool {
    match read_action(alloc, phase, line.as_bytes()) {
        Err(Stop::Fault(fault)) => fault == why,
        _ => false,
    }
}

#[test]
fn what_is_no_action_is_told_with_its_cause(rt: HostRuntime) {
    for (phase, line, why) in &REFUSED {
        assert!(rt; is_refused(rt.alloc(), *phase, line, *why));
    }
}
