// The forms of a command line.
use program_edge::Program;

/// The program as a person knows it.
pub(crate) const PROGRAM: Program = Program {
    name: "pitools",
    forms: "usage: pitools check PLAN TRACE       yes, or the first line of TRACE that no boot of PLAN prints there
       pitools follow PLAN ORDER      the boot of PLAN in the order of starts that ORDER has
       pitools passes PLAN            the boot of PLAN in the order of EDK2's dispatchers
       pitools hobs PLAN              the bytes of the HOB list that the boot of PLAN hands to DXE
       pitools explain PLAN           why each module of the boot of PLAN started, and what the others lack
       pitools explain PLAN TRACE     the same of the boot of PLAN of which TRACE tells
       pitools hobs|explain PLAN passes  the same in the order of EDK2's dispatchers
       pitools gcd HOBS COMMANDS      the memory space map of a HOB list
       pitools mp FILE                what the MP services answer and leave
       pitools volume TEXT            the bytes of the volume that a text describes
       pitools text VOLUME            the text of a volume, which `volume` reads
       pitools asm depex|script FILE  the bytes of a text, in hexadecimal
       pitools dis pei|dxe|script FILE  the text of bytes
       pitools --help, -h             prints this; --version says which program it is
Exit statuses: 0 done, 1 usage, 2 file, 3 too long, 4 plan, 5 image, 6 no hand-off, 7 spent, 8 deep, 9 output, 10 memory, 11 no, 12 twins, 13 HOBs, 14 command, 15 text, 16 order.
PIBOOT_WORDS=1 in the environment has words written here also where two pipes take the outputs apart; empty, it has none written.",
};
