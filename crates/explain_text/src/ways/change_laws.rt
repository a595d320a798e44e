// Laws of what would make an expression hold.
ghost use Rattle.std.specs.Prelude.{◌≡◌, Bool, true, [], Some, option_map};
ghost use Rattle.pi_base.specs.{declared.guid.Guid.Guid, Lists.Each};
ghost use Rattle.depex_code.specs.Tree.{DepexTree, truth};
ghost use Rattle.explain_text.specs.Change.{Makes, SaysOnce, change_by, with_change};
ghost use Rattle.explain_text.specs.Ways.{Way, first_way, ways};

/// Each way of a tree gives it the truth that was asked for, whatever else is installed.
pub fn a_way_is_enough()
    ensures { (has : Guid → Bool) (want : Bool) (node : DepexTree) → Each (Makes want node) (ways has want node) }
{}

/// A way says one thing of each GUID: none stands in both lines, and none twice.
pub fn each_guid_once()
    ensures { (has : Guid → Bool) (want : Bool) (node : DepexTree) → Each SaysOnce (ways has want node) }
{}

/// With the GUIDs of `would` there and those of `unless` gone the expression holds, and where it holds already there are none.
pub fn would_makes_it_hold()
    ensures enough { (has : Guid → Bool) (node : DepexTree) (way : Way) → first_way (ways has true node) ≡ Some way
        → truth (with_change has (change_by way)) node ≡ true }
    ensures none { (has : Guid → Bool) (node : DepexTree) → truth has node ≡ true
        → option_map change_by (first_way (ways has true node)) ≡ Some (record { would = []; unless = [] }) }
{}
