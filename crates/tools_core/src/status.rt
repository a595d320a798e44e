// What the tools answer.
ghost use Rattle.std.specs.Prelude.{◌≡◌};
ghost use Rattle.tools_core.specs.ExitNumber.{exit_number};

/// The exit status of the tools.
#[derive(Clone, Copy, PartialEq, Eq)]
pub enum ToolStatus {
    /// The text is the answer.
    Done = 0,
    /// The words have no form.
    Usage = 1,
    /// A file could not be read.
    FileFault = 2,
    /// A file is longer than its limit.
    TooLong = 3,
    /// The plan has a fault.
    PlanRefused = 4,
    /// An image of the plan's volumes has a fault.
    ImageRefused = 5,
    /// The boot ends in PEI, which hands nothing on.
    NoHandoff = 6,
    /// The boot's fuel is spent.
    Spent = 7,
    /// The boot's frames are nested too deep.
    Deep = 8,
    /// The text could not be written.
    SinkFault = 9,
    /// Memory ran out.
    Memory = 10,
    /// The trace is not that of a free boot, or a module may not start at its place in an order of starts.
    No = 11,
    /// A volume has two modules of one name.
    Twins = 12,
    /// No memory space can be made of the HOB list.
    HobsRefused = 13,
    /// A line of a file of commands has no form.
    CommandRefused = 14,
    /// A text is not an expression or script, or bytes are not one.
    TextRefused = 15,
    /// A line of an order of starts has no form.
    OrderRefused = 16,
}

impl ToolStatus {
    /// The number that the program ends with.
    pub fn number(self) -> u8
        ensures { result ≡ exit_number self }
    {
        self as u8
    }
}
