// The forms of a command line.
use program_edge::Program;

/// The program as a person knows it.
pub(crate) const PROGRAM: Program = Program {
    name: "piboot",
    forms: "usage: piboot boot PLAN      boots a plan's volumes, and prints what happens
       piboot audit PLAN     prints what is in them
       piboot generate N     boots a generated volume of N modules, 1 to 4096
       piboot --help, -h     prints this; --version says which program it is
PLAN is a file (piboot-plan(5), docs/FORMATS.md); its volumes are looked up in the working folder.
Exit statuses: 0 done, 1 usage, 2 file, 3 too long, 4 plan, 5 image, 6 no hand-off, 7 fuel, 8 depth, 9 output, 10 memory.
PIBOOT_WORDS=1 in the environment has words written here also where two pipes take the outputs apart; empty, it has none written.",
};
