// Reports to a person on a boot in an order of starts.
use tools_core::ToolStatus;

/// What a line of an order must be.
pub(crate) const LINE_FORMS: &str =
    "is none of: pei V GUID, dxe V GUID, with the number of a volume and the name of its file; or it is no `stop` behind which nothing follows";

/// The meaning of the reason why a start is not possible.
pub(crate) fn against_words(against: &str) -> &'static str {
    if against == "unknown" {
        "names no module: none of this volume and name has a part of the phase"
    } else if against == "started" {
        "has a module start that has started, and may not again"
    } else if against == "not eligible" {
        "has a module start that may not there, though all is installed that its dependency expression pushes: NOT forbids it, an a priori module has to start first, or it has no expression and an architectural protocol is not installed"
    } else {
        "has a module start that may not there; the last line printed has the GUIDs that its dependency expression pushes and that are not installed; or an a priori module has to start first"
    }
}

/// What a status means of a boot in an order of starts, whatever the plan.
pub(crate) fn boot_words(status: ToolStatus) -> Option<&'static str> {
    match status {
        ToolStatus::NoHandoff => {
            Some(
                "the boot ended in PEI, without a hand-off to DXE; its last line and the lines `waiting` say why",
            )
        }
        ToolStatus::Spent => {
            Some(
                "the boot took all actions of its fuel; a line `fuel N` in the plan gives it up to 1000000",
            )
        }
        ToolStatus::Deep => {
            Some(
                "a script would have begun inside of 64 others; notifications that fire one another do so",
            )
        }
        _ => None,
    }
}
