// A boot in an order of starts is one.
ghost use Rattle.recorded_boot.specs.OneBoot.{OneAnswer, OneBoot};

/// However a boot along an order ends, each other answer for the same order is the same, with the same text, unless memory runs out or the sink fails. This
/// holds for a plan and its images too.
pub fn one_boot()
    ensures boot { OneBoot }
    ensures answer { OneAnswer }
{
    mod_catalog::one_catalogue();
    mod_catalog::catalogues_are_well_formed();
}
