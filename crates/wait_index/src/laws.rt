// Laws on which the dispatchers rely.
ghost use Rattle.std.specs.Prelude.{◌≡◌, Bool, true, find};
ghost use Rattle.pi_base.specs.declared.guid.Guid.{Guid};
ghost use Rattle.depex_code.specs.Tree.{DepexTree, truth};
ghost use Rattle.mod_catalog.specs.declared.catalogue.Catalog.{Catalog};
ghost use Rattle.boot_model.specs.EvaluationBound.{tree_pushes, pei_asked, dxe_asked};
ghost use Rattle.boot_model.specs.{PeiMachine.PeiMachine, PeiChoice.rotated, PeiChoice.next_peim, DxeMachine.DxeMachine};
ghost use Rattle.boot_model.specs.DxeChoice.{first_eligible};
ghost use Rattle.wait_index.specs.{declared.index.WaitIndex.WaitIndex as Index, Dispatch.StandsForPei, Dispatch.StandsForDxe};
ghost use Rattle.wait_index.specs.Index.{IsIndex, order_in, is_eligible_in, asked};

/// Whether a tree holds depends only on the GUIDs that it pushes.
pub fn truth_asks_what_is_pushed()
    ensures { (has other : Guid → Bool) (node : DepexTree) → ((guid : Guid) → tree_pushes guid node ≡ true → has guid ≡ other guid)
        → truth has node ≡ truth other node }
{}

/// Over an index that stands for the machine in PEI, `next` from the machine's cursor gives the next PEIM.
pub fn next_is_the_next_peim()
    ensures { (catalog : Catalog) (m : PeiMachine) (index : Index) → IsIndex catalog index → StandsForPei catalog m index
        → find (is_eligible_in catalog index) (rotated m.cursor (order_in index)) ≡ next_peim catalog m }
{}

/// Over an index that stands for the machine in DXE, `next` from the front gives the first eligible driver.
pub fn next_is_the_first_eligible_driver()
    ensures { (catalog : Catalog) (m : DxeMachine) (index : Index) → IsIndex catalog index → StandsForDxe catalog m index
        → find (is_eligible_in catalog index) (rotated 0 (order_in index)) ≡ first_eligible catalog m }
{}

/// In PEI the parts that wait and push a GUID are those that the bound on evaluations counts.
pub fn asked_are_those_of_the_bound_in_pei()
    ensures { (catalog : Catalog) (m : PeiMachine) (index : Index) → StandsForPei catalog m index → (guid : Guid)
        → asked catalog index guid ≡ pei_asked catalog m guid }
{}

/// In DXE the parts that wait and push a GUID are those that the bound on evaluations counts.
pub fn asked_are_those_of_the_bound_in_dxe()
    ensures { (catalog : Catalog) (m : DxeMachine) (index : Index) → StandsForDxe catalog m index → (guid : Guid)
        → asked catalog index guid ≡ dxe_asked catalog m guid }
{}
