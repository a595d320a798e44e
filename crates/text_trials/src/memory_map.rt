// The memory space map of a HOB list: what commands on it are answered, and what is printed of it.
use crate::board::{MOST_TEXT, empty_sink};
use crate::hob_rows::Row::*;
use crate::hob_rows::{Row, hob_list};
use boot_io::MemSink;
use gcd_map::{
    Answer, Command, CommandFault, GcdRange, MOST_BYTES, from_hobs, one_map, one_space,
    put_answers, put_command_refusal, put_hobs_refusal, put_map, read_commands,
};
use std::alloc::Global;
use std::test::*;

/// HOBs after a hand-off and before an end, the text of commands, and what is printed.
struct Case {
    hobs: &'static [Row],
    commands: &'static [u8],
    text: &'static [u8],
}

static CASES: [Case; 30] = [
    // The greatest base, an allocation across what is allocated, and an end after the space.
    Case {
        hobs: &[Cpu(32), Resource(0, 0x40000000, 0x10000)],
        commands: b"top system 12 0x1000\nallocate system 0x4000f800 0x1000\n\
            remove 0x4000f000 0x1000\nadd mmio 0x40010000 0x1000\n\
            add mmio 0xfffff000 0x2000\n",
        text: b"top Success 0x4000f000\nallocate NotFound\nremove AccessDenied\nadd Success\n\
            add Unsupported\nrange 0x0 0x40000000 nonexistent free\n\
            range 0x40000000 0xf000 system free\nrange 0x4000f000 0x1000 system allocated\n\
            range 0x40010000 0x1000 mmio free\n\
            range 0x40011000 0xbffef000 nonexistent free\n",
    },
    // A resource that meets an earlier one.
    Case {
        hobs: &[
            Cpu(32),
            Resource(0, 0x40000000, 0x10000),
            Resource(1, 0x4000f000, 0x1000),
        ],
        commands: b"",
        text: b"refused hobs Overlap 120\n",
    },
    // A command without its length.
    Case {
        hobs: &[Cpu(32), Resource(0, 0x40000000, 0x10000)],
        commands: b"free 1",
        text: b"refused command 1\n",
    },
    // What is freed is one range with its neighbours.
    Case {
        hobs: &[Cpu(32), Resource(0, 0x40000000, 0x10000)],
        commands: b"allocate system 0x40000000 0x1000\nfree 0x40000000 0x1000\nfree 0x0 0x1000\n",
        text: b"allocate Success\nfree Success\nfree NotFound\n\
            range 0x0 0x40000000 nonexistent free\nrange 0x40000000 0x10000 system free\n\
            range 0x40010000 0xbfff0000 nonexistent free\n",
    },
    // Each refusal, in its order before others that hold too, and lines that are skipped.
    Case {
        hobs: &[
            Cpu(16),
            Resource(0, 0x1000, 0x2000),
            Resource(1, 0x8000, 0x1000),
            Allocation(0x2000, 0x800),
        ],
        commands: b"# refusals of add\r\nadd system 0x0 0x0\r\n\r\nadd nonexistent 0x0 0x20000\n\
            add system 0xfff0 0x11\nadd system 18446744073709551615 18446744073709551615\n\
            add reserved 0x2fff 2\nadd reserved 0 65536\n# of allocate\n\
            allocate mmio 0x8000 0\nallocate nonexistent 0 1\nallocate system 0xfff0 0x11\n\
            allocate system 0x1fff 2\nallocate mmio 0x8fff 2\nallocate system 0x8000 1\n\
            # of top\ntop system 53 0\ntop nonexistent 0 1\ntop system 53 1\n\
            top system 52 1\ntop system 0 0x1001\ntop system 12 0x800\n# of free\nfree 0 0\n\
            free 0xfff0 0x11\nfree 0x2000 0x801\n# of remove\nremove 0 0\n\
            remove 0xfff0 0x11\nremove 0x7fff 2\nremove 0x2000 0x2000\nremove 0x1000 1\n\
            remove 0x2800 0x800\nremove 0x8000 0x1000\nfree 0x1000 0x800\n\
            free 0x2000 0x800\ntop system 0 1\nadd mmio 0x2800 0x10",
        text: b"add InvalidParameter\nadd InvalidParameter\nadd Unsupported\nadd Unsupported\n\
            add AccessDenied\nadd AccessDenied\nallocate InvalidParameter\n\
            allocate InvalidParameter\nallocate NotFound\nallocate NotFound\n\
            allocate NotFound\nallocate NotFound\ntop InvalidParameter\n\
            top InvalidParameter\ntop InvalidParameter\ntop NotFound\ntop NotFound\n\
            top Success 0x1000\nfree InvalidParameter\nfree Unsupported\nfree NotFound\n\
            remove InvalidParameter\nremove Unsupported\nremove NotFound\nremove NotFound\n\
            remove AccessDenied\nremove Success\nremove Success\nfree Success\n\
            free Success\ntop Success 0x27ff\nadd Success\n\
            range 0x0 0x1000 nonexistent free\nrange 0x1000 0x17ff system free\n\
            range 0x27ff 0x1 system allocated\nrange 0x2800 0x10 mmio free\n\
            range 0x2810 0xd7f0 nonexistent free\n",
    },
    // Memory of two kinds is freed at once, and each keeps its kind; the space is full from its first address to its last.
    Case {
        hobs: &[
            Cpu(12),
            Cpu(99),
            Resource(3, 0x800, 0x800),
            Resource(0, 0, 0x800),
            Allocation(0x400, 0x400),
        ],
        commands: b"allocate mmio 0x800 0x400\nfree 0x400 0x800\ntop mmio 11 0x800\ntop system 11 1",
        text: b"allocate Success\nfree Success\ntop Success 0x800\ntop Success 0x0\n\
            range 0x0 0x1 system allocated\nrange 0x1 0x7ff system free\n\
            range 0x800 0x800 mmio allocated\n",
    },
    // Free and top over memory that HOBs allocate.
    Case {
        hobs: &[
            Cpu(20),
            Resource(0, 0xe4300, 0x10000),
            Resource(0, 0x94100, 0x400),
            Allocation(0xe4300, 0x10000),
            Allocation(0x94100, 0x200),
        ],
        commands: b"free 0xD3900 0x200\nallocate mmio 0xe4300 0x8000\ntop reserved 255 256\n\
            free 0x94300 0x400\ntop nonexistent 53 0x2000\ntop system 4 0x8000\n",
        text: b"free NotFound\nallocate NotFound\ntop InvalidParameter\nfree NotFound\n\
            top InvalidParameter\ntop NotFound\nrange 0x0 0x94100 nonexistent free\n\
            range 0x94100 0x200 system allocated\nrange 0x94300 0x200 system free\n\
            range 0x94500 0x4fe00 nonexistent free\nrange 0xe4300 0x10000 system allocated\n\
            range 0xf4300 0xbd00 nonexistent free\n",
    },
    // Adds, frees and tops between reserved memory and MMIO.
    Case {
        hobs: &[
            Cpu(16),
            Resource(0, 0xa6c0, 0x10),
            Resource(5, 0x3da0, 0x40),
            Resource(1, 0xe1c0, 0x1e40),
            Resource(0, 0xcef0, 0x100),
            Resource(0, 0xac90, 0x100),
        ],
        commands: b"top system 4 0x100\nadd reserved 0xac90 0x80\nadd system 0xa6c8 0x10\n\
            top nonexistent 0x5 0x80\ntop system 1 0x1e40\nadd reserved 0xA730 0x10\n\
            free 0xcef0 0x80\nfree 0xF450 4096\nadd system 0x3da0 0x20\n\
            add reserved 9280 32\nallocate system 0xe1c0 0x3c8\ntop nonexistent 4 0x80\n\
            allocate system 0x3da0 0x20\n",
        text: b"top Success 0xcef0\nadd AccessDenied\nadd AccessDenied\ntop InvalidParameter\n\
            top NotFound\nadd Success\nfree Success\nfree Unsupported\nadd AccessDenied\n\
            add Success\nallocate NotFound\ntop InvalidParameter\nallocate NotFound\n\
            range 0x0 0x2440 nonexistent free\nrange 0x2440 0x20 reserved free\n\
            range 0x2460 0x1940 nonexistent free\nrange 0x3da0 0x40 reserved free\n\
            range 0x3de0 0x68e0 nonexistent free\nrange 0xa6c0 0x10 system free\n\
            range 0xa6d0 0x60 nonexistent free\nrange 0xa730 0x10 reserved free\n\
            range 0xa740 0x550 nonexistent free\nrange 0xac90 0x100 system free\n\
            range 0xad90 0x2160 nonexistent free\nrange 0xcef0 0x80 system free\n\
            range 0xcf70 0x80 system allocated\nrange 0xcff0 0x11d0 nonexistent free\n\
            range 0xe1c0 0x1e40 mmio free\n",
    },
    // A line with a space at its end.
    Case {
        hobs: &[Cpu(16)],
        commands: b"free 1 2 \n",
        text: b"refused command 1\n",
    },
    // I/O space, which is in no map, and no commands.
    Case {
        hobs: &[
            Cpu(12),
            Resource(0, 0xbae, 0x100),
            Resource(2, 0x54d, 0x100),
            Named,
        ],
        commands: b"",
        text: b"range 0x0 0xbae nonexistent free\nrange 0xbae 0x100 system free\n\
            range 0xcae 0x352 nonexistent free\n",
    },
    // Reserved memory, and a pool among the HOBs.
    Case {
        hobs: &[Cpu(32), Pool, Resource(5, 0xf3300000, 0x1000000)],
        commands: b"allocate mmio 0x6280000 2097152\n",
        text: b"allocate NotFound\nrange 0x0 0xf3300000 nonexistent free\n\
            range 0xf3300000 0x1000000 reserved free\n\
            range 0xf4300000 0xbd00000 nonexistent free\n",
    },
    // An allocation of no addresses.
    Case {
        hobs: &[
            Cpu(36),
            Allocation(0x29b000000, 0x0),
            Resource(6, 0x926000000, 0x400000000),
            Resource(0, 0x29b000000, 0x100000000),
            Resource(6, 0xa8d000000, 0x100000000),
            Named,
        ],
        commands: b"allocate nonexistent 0xb0d000000 0x80000000\n\
            allocate mmio 0x29b000000 0x80000000\ntop nonexistent 255 0x100000000\n\
            top system 0x5 0x100000000\nremove 0xD9000000 0x2000000\n\
            add system 0x987000000 16777216\nallocate nonexistent 0xb0d000000 0x20000000\n\
            free 0x6b4800000 16777216\nremove 0x31b000000 0x100000000\n\
            allocate mmio 0x29b000000 0x80000000\n\
            allocate reserved 0xa8d000000 0x100000000\ntop mmio 0 0x20000000\n\
            top mmio 52 0x10000000\nallocate system 0x926000000 0x400000000\n",
        text: b"refused hobs Outside 72\n",
    },
    // A line with a space at its front.
    Case {
        hobs: &[Cpu(36), Resource(3, 0xd5000000, 0x400000000), Pool],
        commands: b"remove 0xe43000000 33554432\nallocate reserved 0xd5000000 0x200000000\n\
            \x20free 1 2\nadd system 0xd5000000 0x80000000\n",
        text: b"refused command 3\n",
    },
    // Why there is no map of a HOB list, and the first fault.
    // No CPU HOB comes before a resource without addresses.
    Case {
        hobs: &[],
        commands: b"",
        text: b"refused hobs NoCpu 0\n",
    },
    Case {
        hobs: &[Resource(0, 0, 0)],
        commands: b"",
        text: b"refused hobs NoCpu 0\n",
    },
    // The first CPU HOB's bits, after a resource without addresses.
    Case {
        hobs: &[Cpu(11), Cpu(12)],
        commands: b"",
        text: b"refused hobs Bits 56\n",
    },
    Case {
        hobs: &[Resource(0, 0, 0), Cpu(53)],
        commands: b"",
        text: b"refused hobs Bits 104\n",
    },
    // A resource without addresses, with its end after the space, and with its end after all numbers.
    Case {
        hobs: &[Cpu(52), Resource(1, 0x1000, 0)],
        commands: b"",
        text: b"refused hobs Range 72\n",
    },
    Case {
        hobs: &[Cpu(12), Resource(3, 0xfff, 2)],
        commands: b"",
        text: b"refused hobs Range 72\n",
    },
    Case {
        hobs: &[Cpu(12), Resource(5, 0xffff_ffff_ffff_ffff, 2)],
        commands: b"",
        text: b"refused hobs Range 72\n",
    },
    // The first resource with a fault, and its range before what it meets.
    Case {
        hobs: &[
            Cpu(12),
            Resource(0, 0, 0x10),
            Resource(4, 0xf, 1),
            Resource(0, 0, 0),
        ],
        commands: b"",
        text: b"refused hobs Overlap 120\n",
    },
    Case {
        hobs: &[Cpu(12), Resource(0, 0, 0x1000), Resource(0, 0xff0, 0x11)],
        commands: b"",
        text: b"refused hobs Range 120\n",
    },
    // A resource that meets another comes before an allocation.
    Case {
        hobs: &[
            Cpu(12),
            Allocation(0, 0),
            Resource(0, 0, 2),
            Resource(0, 1, 1),
        ],
        commands: b"",
        text: b"refused hobs Overlap 168\n",
    },
    // Resources of other types are skipped, whatever their addresses.
    Case {
        hobs: &[
            Cpu(12),
            Resource(2, 0, 0),
            Resource(6, 0, 0x2000),
            Resource(0, 0, 0),
        ],
        commands: b"",
        text: b"refused hobs Range 168\n",
    },
    // An allocation without addresses, after the space, of what is not system memory, partly of it, and twice.
    Case {
        hobs: &[Cpu(12), Allocation(0, 0)],
        commands: b"",
        text: b"refused hobs Outside 72\n",
    },
    Case {
        hobs: &[Cpu(12), Resource(0, 0, 0x1000), Allocation(0xfff, 2)],
        commands: b"",
        text: b"refused hobs Outside 120\n",
    },
    Case {
        hobs: &[Cpu(12), Resource(1, 0, 0x10), Allocation(0, 1)],
        commands: b"",
        text: b"refused hobs Outside 120\n",
    },
    Case {
        hobs: &[Cpu(12), Resource(5, 0, 0x10), Allocation(0, 1)],
        commands: b"",
        text: b"refused hobs Outside 120\n",
    },
    Case {
        hobs: &[Cpu(12), Resource(0, 0, 0x10), Allocation(0xf, 2)],
        commands: b"",
        text: b"refused hobs Outside 120\n",
    },
    Case {
        hobs: &[
            Cpu(12),
            Resource(0, 0, 0x10),
            Allocation(0, 1),
            Allocation(0xf, 1),
            Allocation(0, 0x10),
        ],
        commands: b"",
        text: b"refused hobs Outside 216\n",
    },
];

// Prints what commands are answered, and a map; whether the sink takes it.
fn put_run(sink: &mut MemSink, steps: &[(Command, Answer)], ranges: &[GcdRange]) -> bool {
    put_answers(sink, steps).is_ok() && put_map(sink, ranges).is_ok()
}

// Prints the answers to commands on the map of a HOB list, and the map after them, or why there is no map.
fn print_run(alloc: Global, sink: &mut MemSink, hobs: &[u8], commands: &[Command]) -> bool {
    if hobs.len() > MOST_BYTES {
        return false;
    }
    match from_hobs(alloc, hobs) {
        Ok(mut map) => match map.run(alloc, commands) {
            Ok(steps) => put_run(sink, steps.as_slice(), map.map()),
            Err(_) => false,
        },
        Err(fault) => put_hobs_refusal(sink, fault).is_ok(),
    }
}

// Prints which line is not a command, if the HOB list has a map.
fn print_refusal(alloc: Global, sink: &mut MemSink, hobs: &[u8], line: u32) -> bool {
    hobs.len() <= MOST_BYTES
        && from_hobs(alloc, hobs).is_ok()
        && put_command_refusal(sink, line).is_ok()
}

// Prints either for the text of commands.
fn print(alloc: Global, sink: &mut MemSink, hobs: &[u8], text: &[u8]) -> bool {
    if text.len() >= MOST_TEXT {
        return false;
    }
    match read_commands(alloc, text) {
        Ok(commands) => print_run(alloc, sink, hobs, commands.as_slice()),
        Err(CommandFault::Bad { line }) => print_refusal(alloc, sink, hobs, line),
        Err(CommandFault::Memory) => false,
    }
}

// Whether what is printed of a case is its text.
fn is_printed(alloc: Global, case: &Case) -> bool {
    let hobs = hob_list(alloc, case.hobs);
    match empty_sink(alloc) {
        Some(mut sink) => {
            print(alloc, &mut sink, &hobs, case.commands) && sink.text() == case.text
        }
        None => false,
    }
}

#[test]
fn answers_and_maps_are_printed(rt: HostRuntime) {
    for case in &CASES {
        assert!(rt; is_printed(rt.alloc(), case));
    }
    one_map();
    one_space();
}
