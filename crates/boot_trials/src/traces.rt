// The texts of traces: each form, both ways, and the first line of no form.
use boot_io::MemSink;
use boot_model::Line;
use boot_trace::put_all;
use pi_base::Seq;
use std::alloc::Global;
use std::test::*;
use trace_reader::{TraceFault, read_trace};

/// The texts are shorter.
const MOST_TEXT: usize = 10_000;

/// Texts, and the first bad line, or 0 if there is none.
static TEXTS: [(&[u8], u32); 61] = [
    // No line, and a line of each form.
    (b"", 0),
    (b"report 0\n", 0),
    (
        b"pei start 0 00000000-0000-0000-0000-00000000000a shadow\n",
        0,
    ),
    (
        b"dxe start 2 00000000-0000-0000-0000-00000000000a before\n",
        0,
    ),
    (b"call boot_mode InvalidParameter\n", 0),
    (b"call desc Success 0x80000040\n", 0),
    (b"call peek Success 230a\n", 0),
    (b"log two words\n", 0),
    (
        b"notify callback 0 00000000-0000-0000-0000-00000000000a f894643d-c449-42d1-8ea8-85bdd8c65bde\n",
        0,
    ),
    (
        b"notify dispatch 0 00000000-0000-0000-0000-00000000000a f894643d-c449-42d1-8ea8-85bdd8c65bde\n",
        0,
    ),
    (
        b"notify protocol 0 00000000-0000-0000-0000-00000000000a f894643d-c449-42d1-8ea8-85bdd8c65bde\n",
        0,
    ),
    (b"end OutOfResources\n", 0),
    (b"migrate 0x80000000 0x40000000\n", 0),
    (b"core install Success\n", 0),
    (b"pei stop\n", 0),
    (b"dxe stop\n", 0),
    (
        b"waiting 0 00000000-0000-0000-0000-00000000000a malformed\n",
        0,
    ),
    (b"handoff 0x40000000\n", 0),
    (b"dxe volume 1\n", 0),
    (b"ppis 1\n", 0),
    (b"ppi core f894643d-c449-42d1-8ea8-85bdd8c65bde 0x0\n", 0),
    (b"callbacks 0\n", 0),
    (b"callback 00000000-0000-0000-0000-00000000000a 1 63\n", 0),
    (b"dispatches 4294967295\n", 0),
    (b"dispatch 00000000-0000-0000-0000-00000000000a 1 0\n", 0),
    (b"pendings 1\n", 0),
    (b"pending 00000000-0000-0000-0000-00000000000a 1 0\n", 0),
    (b"hobs 2\n", 0),
    (b"hob 6 3010000000000000\n", 0),
    (b"hob 7 -\n", 0),
    (b"handles 1\n", 0),
    (b"handle 1 00000000-0000-0000-0000-00000000000a 0x6\n", 0),
    (b"result NoIpl\n", 0),
    (b"volume 0 0xfff00000 4096 -\n", 0),
    (
        b"module 2 0 00000000-0000-0000-0000-00000000000a 0c - 3 - malformed@2\n",
        0,
    ),
    (b"refused usage\n", 0),
    (b"refused file \n", 0),
    (b"refused long two words.fv\n", 0),
    (b"refused plan 2 Overlap\n", 0),
    (b"refused image 0 50 HeaderSum\n", 0),
    // Texts of no trace.
    (b"\n", 1),
    (b"pei stop", 1),
    (b"pei  stop\n", 1),
    (b"report 4294967296\n", 1),
    (
        b"ppi 4294967295 f894643d-c449-42d1-8ea8-85bdd8c65bde 0x0\n",
        1,
    ),
    (b"end success\n", 1),
    (b"log \n", 1),
    (b"hob 6 3\n", 1),
    (b"hob 6 \n", 1),
    (b"call pool Success\n", 1),
    (b"call pool NotFound 0x1\n", 1),
    (b"call peek Success -\n", 1),
    (b"call store Success 0x1\n", 1),
    (b"callbacks 0 \n", 1),
    (b"result\n", 1),
    // Numbers that are not in their printed form, and a GUID in upper case.
    (b"report 00\n", 1),
    (b"report +1\n", 1),
    (b"handoff 0x1A\n", 1),
    (
        b"pei start 0 00000000-0000-0000-0000-00000000000A absent\n",
        1,
    ),
    // After others.
    (b"report 0\npei stop\nlog a", 3),
    (b"report 0\nreport x\nreport y\n", 2),
];

// Whether lines are printed as a text.
fn are_printed(alloc: Global, lines: &[Line], text: &[u8]) -> bool {
    match MemSink::new(alloc, 4096, Seq::new(alloc)) {
        Ok(mut sink) => put_all(&mut sink, lines).is_ok() && sink.text() == text,
        Err(_) => false,
    }
}

// The first bad line, or 0 if what is read of a text prints the same text.
fn bad_line(alloc: Global, text: &[u8]) -> Option<u32> {
    if text.len() >= MOST_TEXT {
        return None;
    }
    match read_trace(alloc, text) {
        Ok(lines) if are_printed(alloc, lines.as_slice(), text) => Some(0),
        Err(TraceFault::Bad { line }) => Some(line),
        _ => None,
    }
}

#[test]
fn each_form_goes_both_ways_and_the_first_line_of_none_is_told(rt: HostRuntime) {
    for (text, line) in &TEXTS {
        assert!(rt; bad_line(rt.alloc(), text) == Some(*line));
    }
}
