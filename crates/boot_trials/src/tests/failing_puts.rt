// A sink that fails at each of its puts in turn, over both top calls.
use super::text::{NOTHING, Text};
use super::{ONE_MODULE, RAN, SMALLEST, file_of, put_files, whole_text, words_of};
use boot_core::boot_main;
use boot_io::{MemFiles, MemSink};
use pi_base::Seq;
use std::alloc::Global;
use std::process::Abort;
use std::test::*;
use tools_core::tools_main;

// A top call.
#[derive(Clone, Copy)]
enum Call {
    Boot,
    Tools,
}

// A call with its words, over the plan `p`, its volume and a file `f`; its text, the number of its status, and how many lines of the text are put one by one.
struct Trial {
    call: Call,
    words: &'static [&'static str],
    file: &'static [u8],
    text: Text<'static>,
    status: u8,
    lines: u64,
}

// The number of the sink's fault, in both calls.
const SINK_FAULT: u8 = 9;

// No text here is put in so many pieces.
const MOST_PUTS: u64 = 1000;

// The events of an MP file, and what is printed of them.
const EVENTS: &[u8] = b"mp 2 1\nall 0 add=0:5 put=7\nturn 1\nwho 1\n";

const REPLIES: &[u8] = b"all Success\nwho 1\ncell 0 0x5\nrecord 0 -\nrecord 1 -\n";

const SUMMARY: &[u8] =
    b"modules 1\nstarts 1\nlast 0\nactions 10\nppis 3\nhobs 7\nheap 328\nresult Done\n";

// Each line is a put or more. The lines of a boot in an order of starts were held before, and are one.
static TRIALS: [Trial; 6] = [
    Trial {
        call: Call::Boot,
        words: &["boot", "p"],
        file: b"",
        text: RAN,
        status: 6,
        lines: 13,
    },
    Trial {
        call: Call::Boot,
        words: &["audit", "p"],
        file: b"",
        text: Text {
            head: ONE_MODULE,
            ..NOTHING
        },
        status: 0,
        lines: 3,
    },
    Trial {
        call: Call::Boot,
        words: &["generate", "1"],
        file: b"",
        text: Text {
            head: SUMMARY,
            ..NOTHING
        },
        status: 0,
        lines: 8,
    },
    Trial {
        call: Call::Tools,
        words: &["mp", "f"],
        file: EVENTS,
        text: Text {
            head: REPLIES,
            ..NOTHING
        },
        status: 0,
        lines: 5,
    },
    Trial {
        call: Call::Tools,
        words: &["follow", "p", "f"],
        file: b"",
        text: RAN,
        status: 6,
        lines: 1,
    },
    Trial {
        call: Call::Tools,
        words: &[],
        file: b"",
        text: Text {
            head: b"refused usage\n",
            ..NOTHING
        },
        status: 1,
        lines: 1,
    },
];

// The plan, its volume and the file of a trial.
fn files_of(rt: &impl Abort, alloc: Global, trial: &Trial) -> MemFiles {
    let content = Text {
        head: trial.file,
        ..NOTHING
    };
    let content = whole_text(rt, alloc, &content);
    let mut files = Seq::new(alloc);
    put_files(rt, alloc, &mut files, &SMALLEST);
    assert!(rt; files.push(file_of(rt, alloc, b"f", content)).is_ok());
    MemFiles::new(files, Seq::new(alloc))
}

// An empty sink that fails at one put.
fn sink_of(rt: &impl Abort, alloc: Global, put: u64) -> MemSink {
    let mut failing = Seq::new(alloc);
    assert!(rt; failing.push(put).is_ok());
    match MemSink::new(alloc, 0x1_0000, failing) {
        Ok(sink) => sink,
        Err(_) => panic!(rt; "ample memory"),
    }
}

// The number of the status that a trial ends with over a sink.
fn status_of(rt: &impl Abort, alloc: Global, trial: &Trial, sink: &mut MemSink) -> u8 {
    let mut files = files_of(rt, alloc, trial);
    let words = words_of(rt, alloc, trial.words);
    match trial.call {
        Call::Boot => boot_main(alloc, words.as_slice(), &mut files, sink) as u8,
        Call::Tools => tools_main(alloc, words.as_slice(), &mut files, sink) as u8,
    }
}

// How many bytes a sink has that fails at a put: a beginning of the text, and not all of it. None where there is no such put, and the sink has the text.
fn len_left_at(
    rt: &impl Abort,
    alloc: Global,
    trial: &Trial,
    whole: &[u8],
    put: u64,
) -> Option<usize> {
    let mut sink = sink_of(rt, alloc, put);
    let status = status_of(rt, alloc, trial, &mut sink);
    let len = sink.text().len();
    if status == SINK_FAULT {
        assert!(rt; len < whole.len() && whole.starts_with(sink.text()));
        Some(len)
    } else {
        assert!(rt; status == trial.status && sink.text() == whole);
        None
    }
}

// How many puts there are. The first leaves nothing where it fails, and none leaves less than the one before.
fn count_puts(rt: &impl Abort, alloc: Global, trial: &Trial, whole: &[u8]) -> u64 {
    let mut most = 0;
    for before in 0..MOST_PUTS {
        match len_left_at(rt, alloc, trial, whole, before + 1) {
            Some(len) => {
                assert!(rt; len >= most && (before > 0 || len == 0));
                most = len;
            }
            None => return before,
        }
    }
    MOST_PUTS
}

fn try_each_put(rt: &impl Abort, alloc: Global, trial: &Trial) {
    let whole = whole_text(rt, alloc, &trial.text);
    let count = count_puts(rt, alloc, trial, whole.as_slice());
    assert!(rt; count >= trial.lines && count < MOST_PUTS);
}

#[test]
fn a_sink_that_fails_at_each_put_in_turn_leaves_a_prefix(rt: HostRuntime) {
    for trial in &TRIALS {
        try_each_put(&rt, rt.alloc(), trial);
    }
}
