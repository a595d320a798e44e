// Files of the MP services' machine: what is printed of their runs, which processors have a job left, and the first bad line.
use crate::board::{MOST_TEXT, empty_sink};
use boot_io::MemSink;
use mp_core::{
    MpFault, MpFile, MpOutcome, each_call_is_answered, events_fit, one_reading, put_bad_line,
    put_outcome, read_mp, run,
};
use std::alloc::Global;
use std::test::*;

/// A file, what is printed of its run, and which processors have a job left.
struct Case {
    file: &'static [u8],
    printed: &'static [u8],
    busy: &'static [bool],
}

static CASES: [Case; 5] = [
    // A start of all, turns, a start of a busy AP, a caller that is no BSP, and the APs disabled.
    Case {
        file: b"mp 3 1\nall 0 add=0:5 put=7\nturn 2\nthis 0 1 put=1\nturn 1\nturn 1\nturn 2\n\
            all 1 put=1\nwho 2\ndisable 0 1\ndisable 0 2\nall 0 put=1\n",
        printed: b"all Success\nthis NotReady\nall DeviceError\nwho 2\ndisable Success\n\
            disable Success\nall NotStarted\ncell 0 0xa\nrecord 0 -\nrecord 1 7\nrecord 2 7\n",
        busy: &[false, false, false],
    },
    // A switch, after which the old BSP is a disabled AP, and a processor that is not there.
    Case {
        file: b"mp 2 1\nswitch 0 1 off\nall 1 put=1\nenable 1 0\nthis 1 0 add=0:3\ndisable 1 0\n\
            turn 0\ndisable 1 0\nthis 1 9 put=1\n",
        printed: b"switch Success\nall NotStarted\nenable Success\nthis Success\n\
            disable Unsupported\ndisable Success\nthis NotFound\ncell 0 0x3\nrecord 0 -\nrecord 1 -\n",
        busy: &[false, false],
    },
    // A sum that passes 2^64, and a `put` that is still to come.
    Case {
        file: b"mp 2 2\nthis 0 1 add=1:18446744073709551615 add=1:3 put=9\nturn 1\nturn 1\nturn 0\n",
        printed: b"this Success\ncell 0 0x0\ncell 1 0x2\nrecord 0 -\nrecord 1 -\n",
        busy: &[false, true],
    },
    // A record of several numbers.
    Case {
        file: b"mp 2 1\nall 0 put=64 put=75 put=54 put=39\nturn 1\nturn 1\nturn 1\nenable 0 1\n\
            all 0 put=16 put=93\nthis 0 2 add=0:7\n",
        printed: b"all Success\nenable Unsupported\nall NotReady\nthis NotFound\ncell 0 0x0\n\
            record 0 -\nrecord 1 64 75 54\n",
        busy: &[false, true],
    },
    // Lines that are skipped, carriage returns, spaces, zeros in front, the greatest numbers, and no last line feed.
    Case {
        file: b"# a run\r\n\r\nmp  02 001\r\nall 0   put=00018446744073709551615\n#\n\
            turn 4294967295\nturn 1",
        printed: b"all Success\ncell 0 0x0\nrecord 0 -\nrecord 1 18446744073709551615\n",
        busy: &[false, false],
    },
];

/// Texts that are no files, and the line that is named.
static REFUSED: [(&[u8], &[u8]); 18] = [
    // No first line `mp N C`.
    (b"", b"refused command 1\n"),
    (b"# none\n\n", b"refused command 3\n"),
    (b"\nwho 0\nmp 1 1\n", b"refused command 2\n"),
    (b"mp 0 1\n", b"refused command 1\n"),
    (b"mp 65 1\n", b"refused command 1\n"),
    (b"mp 1 65\n", b"refused command 1\n"),
    (b"mp 1 1 1\n", b"refused command 1\n"),
    // A second one.
    (b"mp 2 1\nmp 2 1\n", b"refused command 2\n"),
    // A caller, a cell, a number of a processor, or a number that is not there.
    (b"mp 2 1\n\nwho 2\nwho 3\n", b"refused command 3\n"),
    (b"mp 2 1\nall 0 put=1 add=1:1\n", b"refused command 2\n"),
    (b"mp 2 1\nturn 4294967296\n", b"refused command 2\n"),
    (
        b"mp 2 1\nall 0 put=18446744073709551616\n",
        b"refused command 2\n",
    ),
    // Words that spell nothing, too few and too many.
    (b"mp 2 1\nall 0 put=0x1\n", b"refused command 2\n"),
    (b"mp 2 1\nall 0 add=0\n", b"refused command 2\n"),
    (b"mp 2 1\nswitch 0 1 yes\n", b"refused command 2\n"),
    (b"mp 2 1\nall 0\n", b"refused command 2\n"),
    (b"mp 2 1\nwho 0 1\n", b"refused command 2\n"),
    (b"mp 2 1\nwho 0 \n", b"refused command 2\n"),
];

// What is read of a file, and the outcome of its run.
fn outcome_of(alloc: Global, text: &[u8]) -> Option<(MpFile, MpOutcome)> {
    if text.len() >= MOST_TEXT {
        return None;
    }
    let Ok(file) = read_mp(alloc, text) else {
        return None;
    };
    match run(alloc, file.processors, file.cells, file.events.as_slice()) {
        Ok(outcome) => Some((file, outcome)),
        Err(_) => None,
    }
}

// Whether a file's events fit, and this is printed of its run.
fn is_told(sink: &mut MemSink, file: &MpFile, outcome: &MpOutcome, printed: &[u8]) -> bool {
    events_fit(file.events.as_slice(), file.processors, file.cells)
        && put_outcome(sink, file, outcome).is_ok()
        && sink.text() == printed
}

// Whether what is printed of a case's file, and its processors with a job, are right.
fn is_right(alloc: Global, sink: &mut MemSink, case: &Case) -> bool {
    match outcome_of(alloc, case.file) {
        Some((file, outcome)) => {
            is_told(sink, &file, &outcome, case.printed) && outcome.busy.as_slice() == case.busy
        }
        None => false,
    }
}

// The same over a new sink.
fn is_run(alloc: Global, case: &Case) -> bool {
    match empty_sink(alloc) {
        Some(mut sink) => is_right(alloc, &mut sink, case),
        None => false,
    }
}

#[test]
fn a_run_prints_what_was_reckoned(rt: HostRuntime) {
    for case in &CASES {
        assert!(rt; is_run(rt.alloc(), case));
    }
    each_call_is_answered();
}

// The first bad line of a text, or 0 if there is none.
fn bad_line(alloc: Global, text: &[u8]) -> u32 {
    if text.len() >= MOST_TEXT {
        return 0;
    }
    match read_mp(alloc, text) {
        Err(MpFault::Bad { line }) => line,
        _ => 0,
    }
}

// Whether this is printed of a bad line.
fn is_named(sink: &mut MemSink, line: u32, want: &[u8]) -> bool {
    put_bad_line(sink, line).is_ok() && sink.text() == want
}

// Whether this is printed of a text.
fn is_refused(alloc: Global, text: &[u8], want: &[u8]) -> bool {
    let line = bad_line(alloc, text);
    match empty_sink(alloc) {
        Some(mut sink) => is_named(&mut sink, line, want),
        None => false,
    }
}

#[test]
fn what_is_no_file_is_refused_at_its_first_bad_line(rt: HostRuntime) {
    for (text, want) in &REFUSED {
        assert!(rt; is_refused(rt.alloc(), text, want));
    }
    one_reading();
}
