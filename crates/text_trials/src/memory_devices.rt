// Files and sinks in memory, which fail at the calls that they are told to fail at.
use boot_io::{FileFault, Files, MemFiles, MemSink, NamedFile, Sink, SinkFault};
use pi_base::Seq;
use std::alloc::Global;
use std::process::Abort;
use std::test::*;

// The numbers of calls.
fn calls_of(alloc: Global, numbers: &[u64]) -> Option<Seq<u64>> {
    let mut calls = Seq::new(alloc);
    calls.append(numbers).ok()?;
    Some(calls)
}

// A sink with so much room, of which these calls fail.
fn sink_of(alloc: Global, room: usize, failing: &[u64]) -> Option<MemSink> {
    MemSink::new(alloc, room, calls_of(alloc, failing)?).ok()
}

// Puts through the bound.
fn put<S: Sink>(sink: &mut S, piece: &[u8]) -> Result<(), SinkFault> {
    sink.put(piece)
}

// Puts a piece, and compares the answer and the text after it.
fn try_put(
    rt: &impl Abort,
    sink: &mut MemSink,
    piece: &[u8],
    answer: Result<(), SinkFault>,
    text: &[u8],
) {
    let given = put(sink, piece);
    assert!(rt; given == answer);
    assert!(rt; sink.text() == text);
}

// The sink has room for six bytes, and its second call fails.
#[test]
fn a_memory_sink_fails_where_it_is_told_to_and_past_its_room(rt: HostRuntime) {
    let mut sink = sink_of(rt.alloc(), 6, &[2]).expect(&rt, "ample memory");
    try_put(&rt, &mut sink, b"abc", Ok(()), b"abc");
    try_put(&rt, &mut sink, b"xy", Err(SinkFault), b"abc");
    try_put(&rt, &mut sink, b"", Ok(()), b"abc");
    try_put(&rt, &mut sink, b"defg", Err(SinkFault), b"abcdef");
    try_put(&rt, &mut sink, b"", Ok(()), b"abcdef");
    try_put(&rt, &mut sink, b"g", Err(SinkFault), b"abcdef");
    drop(sink);
}

fn file_of(alloc: Global, name: &[u8], content: &[u8]) -> Option<NamedFile> {
    let mut named = Seq::new(alloc);
    named.append(name).ok()?;
    let mut held = Seq::new(alloc);
    held.append(content).ok()?;
    Some(NamedFile {
        name: named,
        content: held,
    })
}

static CONTENTS: [&[u8]; 2] = [b"first", b"second"];

// Two files of one name.
fn two_files(alloc: Global) -> Option<Seq<NamedFile>> {
    let mut list = Seq::new(alloc);
    for content in &CONTENTS {
        list.push(file_of(alloc, b"a", content)?).ok()?;
    }
    Some(list)
}

// The two files, of which these calls fail.
fn files_of(alloc: Global, failing: &[u64]) -> Option<MemFiles> {
    let calls = calls_of(alloc, failing)?;
    Some(MemFiles::new(two_files(alloc)?, calls))
}

// Reads through the bound.
fn read<F: Files>(
    files: &mut F,
    name: &str,
    limit: usize,
    into: &mut Seq<u8>,
) -> Result<(), FileFault> {
    files.read_whole(name, limit, into)
}

// Reads a file, and compares the answer and what was read by then.
fn try_read(
    rt: &impl Abort,
    files: &mut MemFiles,
    into: &mut Seq<u8>,
    (name, limit): (&str, usize),
    (answer, bytes): (Result<(), FileFault>, &[u8]),
) {
    let given = read(files, name, limit, into);
    assert!(rt; given == answer);
    assert!(rt; into.as_slice() == bytes);
}

// The fourth call and the fifth are to fail; a content over its limit is reported as too long all the same.
#[test]
fn memory_files_tell_the_first_content_of_a_name(rt: HostRuntime) {
    let mut files = files_of(rt.alloc(), &[4, 5]).expect(&rt, "ample memory");
    let mut into = Seq::new(rt.alloc());
    try_read(&rt, &mut files, &mut into, ("a", 5), (Ok(()), b"first"));
    try_read(
        &rt,
        &mut files,
        &mut into,
        ("b", 5),
        (Err(FileFault::Failed), b"first"),
    );
    try_read(
        &rt,
        &mut files,
        &mut into,
        ("a", 4),
        (Err(FileFault::TooLong), b"first"),
    );
    try_read(
        &rt,
        &mut files,
        &mut into,
        ("a", 5),
        (Err(FileFault::Failed), b"first"),
    );
    try_read(
        &rt,
        &mut files,
        &mut into,
        ("a", 4),
        (Err(FileFault::TooLong), b"first"),
    );
    try_read(
        &rt,
        &mut files,
        &mut into,
        ("a", 6),
        (Ok(()), b"firstfirst"),
    );
    drop(into);
    drop(files);
}
