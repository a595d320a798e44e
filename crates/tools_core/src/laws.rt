// What holds of all files.
ghost use Rattle.std.specs.Prelude.{◌≤◌, ℕ, List, Option, length};
ghost use Rattle.pi_base.specs.Field.{AreBytes};
ghost use Rattle.boot_core.specs.Job.{IsNamedIn};
ghost use Rattle.tools_core.specs.{declared.command_line.Tool.Tool, declared.command_line.PlanTool.PlanTool};
ghost use Rattle.tools_core.specs.{declared.command_line.TraceTool.TraceTool, FollowReport.OrderTextsOutcome, FollowReport.order_limit};
ghost use Rattle.tools_core.specs.{JobOutcome.JobOutcome, PlanReport.PlanReport, GcdReport.GcdReport};
ghost use Rattle.tools_core.specs.OneOutcome.{AreAllTold, AreTold, IsOne};
ghost use Rattle.tools_core.specs.{Outcome.ContentReport, Outcome.Outcome, TraceReport.TextsOutcome};

/// A HOB list and a text of commands lead to one report.
pub(crate) fn one_map_report()
    ensures { (bytes lines : List ℕ) → IsOne (GcdReport bytes lines) }
{
    gcd_map::one_space();
    gcd_map::one_reading();
    gcd_map::one_map();
}

/// The content of a tool's file leads to one report.
pub(crate) fn one_content_report()
    ensures { (tool : Tool) (content : List ℕ) → AreBytes content → IsOne (ContentReport tool content) }
{
    asm_text::one_expression();
    asm_text::one_script();
    asm_text::one_bad_line();
    depex_code::one_reading();
    act_code::one_outcome();
    mp_core::one_reading();
    volume_text::one_volume();
    volume_print::one_text();
    fv_volume::one_reading();
}

/// The texts of a plan and of a trace lead to one report, if the contents of the plan's volumes are known.
pub(crate) fn one_trace_report()
    ensures { (tool : TraceTool) (told : List ℕ → Option (List ℕ)) (content text : List ℕ) → AreAllTold told (IsNamedIn told content)
        → IsOne (TextsOutcome tool told content text) }
{
    boot_plan::one_reading();
    mod_catalog::one_catalogue();
    mod_catalog::catalogues_are_well_formed();
    explain_text::catalog::one_catalog_text();
    boot_laws::cursor_aims();
    boot_laws::order_is_of_modules();
    trace_reader::one_reading();
}

/// The texts of a plan and of an order of starts within its limit lead to one report, if the contents of the plan's volumes are known.
pub(crate) fn one_follow_report()
    ensures { (told : List ℕ → Option (List ℕ)) (content text : List ℕ) → length text ≤ order_limit
        → AreAllTold told (IsNamedIn told content) → IsOne (OrderTextsOutcome told content text) }
{
    boot_plan::one_reading();
    mod_catalog::one_catalogue();
    mod_catalog::catalogues_are_well_formed();
    recorded_boot::order::one_reading();
    recorded_boot::follow::one_boot();
}

/// The text of a plan leads to one report, if the contents of the plan's volumes are known.
pub(crate) fn one_plan_report()
    ensures { (tool : PlanTool) (told : List ℕ → Option (List ℕ)) (content : List ℕ) → AreAllTold told (IsNamedIn told content)
        → IsOne (JobOutcome (PlanReport tool) told content) }
{
    boot_plan::one_reading();
    mod_catalog::one_catalogue();
    mod_catalog::catalogues_are_well_formed();
    explain_text::catalog::one_catalog_text();
    boot_laws::cursor_aims();
    boot_laws::order_is_of_modules();
    trace_reader::one_reading();
    recorded_boot::passes::one_pass();
    recorded_boot::handing_on::one_hand_off();
}

/// A command line and known file contents have one outcome: one status, and one text.
pub fn one_outcome()
    ensures { (told : List ℕ → Option (List ℕ)) (words : List (List ℕ)) → AreTold told words → IsOne (Outcome told words) }
{
    one_map_report();
    one_content_report();
    one_plan_report();
    one_trace_report();
    one_follow_report();
}
