// The words of a command line.
ghost use Rattle.std.specs.Prelude.{◌≡◌, ◌↔◌, ℕ, List, [], ◌∷◌, codes, IfSome, IfNone, IsTrue};
ghost use Rattle.tools_core.specs.{declared.command_line.Tool.Tool, declared.command_line.TraceTool.TraceTool};
ghost use Rattle.tools_core.specs.declared.command_line.PlanTool.{PlanTool};
ghost use Rattle.tools_core.specs.CommandLine.{AskForFollow, AskForMap, AskForPlan, AskForTool, AskForTrace, NamesTrace};
ghost use Rattle.tools_core.specs.CommandLine.{plan_words, tool_words, trace_word};
ghost use Rattle.boot_io.specs.Words.{words_of};

/// A tool of one file.
#[derive(Clone, Copy)]
pub(crate) enum Tool {
    /// The bytes of an expression's text.
    AssembleDepex,
    /// The bytes of a script's text.
    AssembleScript,
    /// The text of an expression of PEI.
    ReadPei,
    /// The text of an expression of DXE.
    ReadDxe,
    /// The text of a script.
    ReadScript,
    /// The MP services over an MP file.
    Mp,
    /// The bytes of a volume's text.
    Volume,
    /// The text of a volume.
    ReadVolume,
}

/// A tool of a plan alone.
#[derive(Clone, Copy)]
pub(crate) enum PlanTool {
    /// The HOB list that the plan's PEI hands on.
    Hobs,
    /// That in the order of EDK2's dispatchers.
    HobsInTurns,
    /// Why each module of the plan's boot started, or why it never did.
    Reasons,
    /// That of the boot in the order of EDK2's dispatchers.
    ReasonsInTurns,
    /// The plan's boot in the order of EDK2's dispatchers.
    Passes,
}

/// A tool of a plan and of a trace.
#[derive(Clone, Copy)]
pub(crate) enum TraceTool {
    /// Whether the trace is that of a free boot.
    Check,
    /// Explains the boot that the trace records.
    Explain,
}

// The tool that makes bytes of such a text.
fn assembler_of(what: &str) -> Option<Tool>
    ensures found { IfSome result (λ tool. tool_words tool ≡ codes "asm" ∷ what.now ∷ []) }
    ensures none { IfNone result ((tool : Tool) → tool_words tool ≡ codes "asm" ∷ what.now ∷ [] → ⊥) }
{
    if what == "depex" {
        Some(Tool::AssembleDepex)
    } else if what == "script" {
        Some(Tool::AssembleScript)
    } else {
        None
    }
}

// The tool that makes a text of such bytes.
fn reader_of(what: &str) -> Option<Tool>
    ensures found { IfSome result (λ tool. tool_words tool ≡ codes "dis" ∷ what.now ∷ []) }
    ensures none { IfNone result ((tool : Tool) → tool_words tool ≡ codes "dis" ∷ what.now ∷ [] → ⊥) }
{
    if what == "pei" {
        Some(Tool::ReadPei)
    } else if what == "dxe" {
        Some(Tool::ReadDxe)
    } else if what == "script" {
        Some(Tool::ReadScript)
    } else {
        None
    }
}

// The tool that two words name.
fn tool_of(verb: &str, what: &str) -> Option<Tool>
    ensures found { IfSome result (λ tool. tool_words tool ≡ verb.now ∷ what.now ∷ []) }
    ensures none { IfNone result ((tool : Tool) → tool_words tool ≡ verb.now ∷ what.now ∷ [] → ⊥) }
{
    if verb == "asm" {
        assembler_of(what)
    } else if verb == "dis" {
        reader_of(what)
    } else {
        None
    }
}

// The tool that one word names.
fn short_tool_of(verb: &str) -> Option<Tool>
    ensures found { IfSome result (λ tool. tool_words tool ≡ verb.now ∷ []) }
    ensures none { IfNone result ((tool : Tool) → tool_words tool ≡ verb.now ∷ [] → ⊥) }
{
    if verb == "mp" {
        Some(Tool::Mp)
    } else if verb == "volume" {
        Some(Tool::Volume)
    } else if verb == "text" {
        Some(Tool::ReadVolume)
    } else {
        None
    }
}

// The tool that words name which are before a file's name.
fn named_tool(words: &[String]) -> Option<Tool>
    ensures found { IfSome result (λ tool. tool_words tool ≡ words_of words.now) }
    ensures none { IfNone result ((tool : Tool) → tool_words tool ≡ words_of words.now → ⊥) }
{
    match words {
        [verb] => short_tool_of(verb.as_str()),
        [verb, what] => tool_of(verb.as_str(), what.as_str()),
        _ => None,
    }
}

/// The tool of one file that the words ask for, and the file's name.
pub(crate) fn asked_tool(words: &[String]) -> Option<(Tool, &str)>
    ensures found { IfSome result (λ asked. AskForTool (words_of words.now) asked.0 asked.1.now) }
    ensures none { IfNone result ((tool : Tool) (file : List ℕ) → AskForTool (words_of words.now) tool file → ⊥) }
{
    match words {
        [front @ .., file] => {
            let file = file.as_str();
            if file.is_empty() {
                return None;
            }
            match named_tool(front) {
                Some(tool) => Some((tool, file)),
                None => None,
            }
        }
        [] => None,
    }
}

// Whether a word asks for a memory space map.
fn asks_for_map(verb: &str) -> bool
    ensures { IsTrue result ↔ (verb.now ≡ codes "gcd") }
{
    verb == "gcd"
}

// The tool of a plan and of a trace that a word names.
fn trace_tool_of(verb: &str) -> Option<TraceTool>
    ensures found { IfSome result (λ tool. verb.now ≡ trace_word tool) }
    ensures none { IfNone result ((tool : TraceTool) → verb.now ≡ trace_word tool → ⊥) }
{
    if verb == "check" {
        Some(TraceTool::Check)
    } else if verb == "explain" {
        Some(TraceTool::Explain)
    } else {
        None
    }
}

// Whether a word asks for a boot in an order of starts.
fn asks_for_follow(verb: &str) -> bool
    ensures { IsTrue result ↔ (verb.now ≡ codes "follow") }
{
    verb == "follow"
}

// The tool of a plan that a word names.
fn plan_tool_of(verb: &str) -> Option<PlanTool>
    ensures found { IfSome result (λ tool. (plan : List ℕ) → plan_words tool plan ≡ verb.now ∷ plan ∷ []) }
    ensures none { IfNone result ((tool : PlanTool) (plan : List ℕ) → plan_words tool plan ≡ verb.now ∷ plan ∷ [] → ⊥) }
{
    if verb == "hobs" {
        Some(PlanTool::Hobs)
    } else if verb == "explain" {
        Some(PlanTool::Reasons)
    } else if verb == "passes" {
        Some(PlanTool::Passes)
    } else {
        None
    }
}

// The tool that two words name, one before and one behind the plan's name.
fn turn_tool_of(verb: &str, order: &str) -> Option<PlanTool>
    ensures found { IfSome result (λ tool. (plan : List ℕ) → plan_words tool plan ≡ verb.now ∷ plan ∷ order.now ∷ []) }
    ensures none { IfNone result ((tool : PlanTool) (plan : List ℕ) → plan_words tool plan ≡ verb.now ∷ plan ∷ order.now ∷ [] → ⊥) }
{
    if order != "passes" {
        None
    } else if verb == "hobs" {
        Some(PlanTool::HobsInTurns)
    } else if verb == "explain" {
        Some(PlanTool::ReasonsInTurns)
    } else {
        None
    }
}

// The tool of a plan that words name which stand before and behind the plan's name.
fn tool_around(verb: &str, behind: &[String]) -> Option<PlanTool>
    ensures found { IfSome result (λ tool. (plan : List ℕ) → plan_words tool plan ≡ verb.now ∷ plan ∷ words_of behind.now) }
    ensures none { IfNone result ((tool : PlanTool) (plan : List ℕ) → plan_words tool plan ≡ verb.now ∷ plan ∷ words_of behind.now → ⊥) }
{
    match behind {
        [] => plan_tool_of(verb),
        [order] => turn_tool_of(verb, order.as_str()),
        _ => None,
    }
}

/// The tool of a plan that the words ask for, and the name of the plan's file.
pub(crate) fn asked_plan(words: &[String]) -> Option<(PlanTool, &str)>
    ensures found { IfSome result (λ asked. AskForPlan (words_of words.now) asked.0 asked.1.now) }
    ensures none { IfNone result ((tool : PlanTool) (plan : List ℕ) → AskForPlan (words_of words.now) tool plan → ⊥) }
{
    match words {
        [verb, plan, behind @ ..] => {
            let plan = plan.as_str();
            if plan.is_empty() {
                return None;
            }
            match tool_around(verb.as_str(), behind) {
                Some(tool) => Some((tool, plan)),
                None => None,
            }
        }
        _ => None,
    }
}

// Whether a word names the trace of such a tool: `explain PLAN passes` asks for the boot in the order of EDK2's dispatchers.
fn names_trace(tool: TraceTool, trace: &str) -> bool
    ensures { IsTrue result ↔ NamesTrace tool trace.now }
{
    match tool {
        TraceTool::Check => !trace.is_empty(),
        TraceTool::Explain => !trace.is_empty() && trace != "passes",
    }
}

/// The tool of a plan and of a trace that the words ask for, and the names of their files.
pub(crate) fn asked_trace(words: &[String]) -> Option<(TraceTool, &str, &str)>
    ensures found { IfSome result (λ asked. AskForTrace (words_of words.now) asked.0 asked.1.now asked.2.now) }
    ensures none { IfNone result ((tool : TraceTool) (plan trace : List ℕ) → AskForTrace (words_of words.now) tool plan trace → ⊥) }
{
    match words {
        [verb, plan, trace] => {
            let plan = plan.as_str();
            let trace = trace.as_str();
            if plan.is_empty() {
                return None;
            }
            match trace_tool_of(verb.as_str()) {
                Some(tool) => {
                    if names_trace(tool, trace) {
                        Some((tool, plan, trace))
                    } else {
                        None
                    }
                }
                None => None,
            }
        }
        _ => None,
    }
}

/// The names of the files of a plan and of an order of starts, if the words ask for the plan's boot in that order.
pub(crate) fn asked_follow(words: &[String]) -> Option<(&str, &str)>
    ensures found { IfSome result (λ asked. AskForFollow (words_of words.now) asked.0.now asked.1.now) }
    ensures none { IfNone result ((plan order : List ℕ) → AskForFollow (words_of words.now) plan order → ⊥) }
{
    match words {
        [verb, plan, order] => {
            let plan = plan.as_str();
            let order = order.as_str();
            if plan.is_empty() || order.is_empty() {
                return None;
            }
            if asks_for_follow(verb.as_str()) {
                Some((plan, order))
            } else {
                None
            }
        }
        _ => None,
    }
}

/// The names of the files of a HOB list and of commands, if the words ask for their map.
pub(crate) fn asked_map(words: &[String]) -> Option<(&str, &str)>
    ensures found { IfSome result (λ asked. AskForMap (words_of words.now) asked.0.now asked.1.now) }
    ensures none { IfNone result ((hobs commands : List ℕ) → AskForMap (words_of words.now) hobs commands → ⊥) }
{
    match words {
        [verb, hobs, commands] => {
            let hobs = hobs.as_str();
            let commands = commands.as_str();
            if hobs.is_empty() || commands.is_empty() {
                return None;
            }
            if asks_for_map(verb.as_str()) {
                Some((hobs, commands))
            } else {
                None
            }
        }
        _ => None,
    }
}
