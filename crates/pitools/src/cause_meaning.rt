// What the cause of a volume's text means.

// The causes, and what each means for the line at fault.
static SOURCE_WORDS: [(&str, &str); 41] = [
    (
        "UnknownLine",
        "begins no line of a volume; volume, name, file, pad, depex, script, guids, raw, section, ui, body, end do",
    ),
    ("Missing", "lacks a word"),
    ("Extra", "has a word too many"),
    (
        "Word",
        "has a word that does not stand there; docs/FORMATS.md has the forms",
    ),
    (
        "Number",
        "has a word that is no number; decimal digits are, or 0x and hexadecimal digits, below 2^64",
    ),
    (
        "Range",
        "has a number out of its range; a volume has 72 to 67108864 bytes, a header an even number from 64 to 65534, a pad file 0 to 16777190, and a name stands behind the header; align has 1, 16, 128, 512, 1024, 4096 or a power of two from 32768 to 16777216",
    ),
    (
        "Guid",
        "has a word that is neither a GUID nor ffs2, ffs3, pei-apriori, dxe-apriori, volume-info-ppi, memory-ppi or dxe-ipl-ppi",
    ),
    (
        "Bytes",
        "has what is no bytes in hexadecimal digits, two each",
    ),
    (
        "FileType",
        "has no type of a file: peim, driver, combined, security-core, pei-core, dxe-core, application, freeform, volume-image, mm-dxe, raw, or two hexadecimal digits",
    ),
    (
        "SectionType",
        "has no type of a section, which is two hexadecimal digits",
    ),
    (
        "UnknownAction",
        "is no action of a script; docs/SERVICES.md has them",
    ),
    (
        "OtherPhase",
        "has what the other phase has: an action, or SOR, BEFORE or AFTER, which DXE alone has",
    ),
    ("Register", "has a word that is no register; r0 to r15 are"),
    (
        "Status",
        "has no status: Success, InvalidParameter, NotFound, OutOfResources, NotAvailableYet, AlreadyStarted, AccessDenied",
    ),
    (
        "Log",
        "logs no text of 1 to 64 characters from space to tilde",
    ),
    (
        "Hob",
        "makes no HOB of a script: type 3 with 40 bytes, 4 with 16 to 1024, 5 with 16, 6 with 8, 9 with 48",
    ),
    (
        "NoOperand",
        "is missing an operand: an operator, a bracket or the line's end is where one is expected; an expression ends with its line",
    ),
    (
        "NoGuid",
        "has a word of an expression that is neither TRUE, FALSE, NOT, AND, OR, a bracket nor a GUID or a name of one; a name of EDK2, as gEfiPcdProtocolGuid, is written as its GUID here",
    ),
    (
        "Bracket",
        "closes a bracket that is not open, or leaves one open",
    ),
    ("TooLong", "is an expression of more than 1024 opcodes"),
    (
        "NoBlock",
        "is an action or an end before the script's first line block",
    ),
    ("NoRet", "ends a block whose last action is not ret"),
    ("Jump", "skips past the last action of its block"),
    (
        "NoSuchBlock",
        "names a block that the script does not have; the first one is block 0",
    ),
    ("Full", "is a 65th block, or the 1025th action of one"),
    ("ScriptTooLong", "ends a script of more than 65536 bytes"),
    (
        "NoVolume",
        "stands where the text has to begin with a line volume LENGTH",
    ),
    (
        "NoFile",
        "belongs in a file, and no line file stands before it in the volume",
    ),
    (
        "NoScript",
        "is a block outside of a script; a line script PHASE begins one",
    ),
    ("InScript", "stands in a script that no line end has ended"),
    (
        "NoPart",
        "is of a phase for which a file of this type has no part; peim and combined have one for PEI, driver, combined and mm-dxe for DXE",
    ),
    (
        "TwoDepex",
        "is a second expression for the phase in one file",
    ),
    (
        "TwoScripts",
        "begins a second script of the phase in one file",
    ),
    (
        "TwoBodies",
        "gives a file a body that has one, or sections beside a body",
    ),
    ("TwoNames", "names a volume that has a name"),
    (
        "Nesting",
        "nests a volume deeper than 4, where the outermost has depth 1",
    ),
    ("BehindEnd", "stands behind the end of the volume"),
    (
        "NoEnd",
        "has no end: a volume or a script is open; each has a line end",
    ),
    ("TooMany", "ends a volume of more than 16384 files"),
    (
        "Size",
        "ends a volume with a section or a file that is too long for its file system; ffs3 behind the length allows more",
    ),
    (
        "NoRoom",
        "needs more bytes than its volume has; the last number above is what the volume needs so far, and at its end all that it needs",
    ),
];

/// What a table has for a word, and otherwise this.
pub(crate) fn words_for(
    table: &[(&'static str, &'static str)],
    word: &str,
    otherwise: &'static str,
) -> &'static str {
    for (name, words) in table {
        if *name == word {
            return *words;
        }
    }
    otherwise
}

/// What the cause of a volume's text means, in a report on the line at fault.
pub(crate) fn source_words(cause: &str) -> &'static str {
    words_for(&SOURCE_WORDS, cause, "can not stand there")
}
