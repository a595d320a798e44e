//! Laws of the boot machine: what holds of every run, whatever the scripts do, and of every boot in which the dispatchers choose freely. A caller may hand in
//! its own choice of the next module, by the trait `Choice`. Begin with `pei`, `dxe` and `choice`.
#![tactic(auto)]

mod boards;
mod choice;
mod dxe;
mod free_dxe;
mod free_pei;
mod guids;
mod order;
mod pei;
mod sound;
mod whole_boot;

pub use boards::{boards_are_sound, boots_are_licensed, boots_have_facts};
pub use choice::{Before, Choice, FirstEligible, Reached};
pub use dxe::{
    companions_start_beside, discovered_order_has_each_once, driver_starts_are_printed,
    driver_steps_grow, drivers_are_few, drivers_start_licensed, drivers_start_once, dxe_runs_end,
    groups_are_small, groups_unfold, queues_keep_their_order, queues_start_in_order,
    refused_calls_change_nothing, unrequested_drivers_wait,
};
pub use free_dxe::{
    dxe_chooses_by_groups, dxe_ends, dxe_goes_on, dxe_lines_grow, dxe_opens, dxe_starts_freely,
    few_drivers_wait, groups_are_aimed, names_lead_to_root,
};
pub use free_pei::{
    boot_is_free, cursor_aims, pei_ends, pei_goes_on, pei_lines_grow, pei_opens, pei_starts_freely,
};
pub use guids::{guids_are_there, guids_are_these, guids_change};
pub use order::{
    order_has_each_part_once, order_is_of_modules, orders_of_runs_are_whole,
    reported_volumes_differ,
};
pub use pei::{
    licensed_run, moves_change_nothing, opening_has_facts, pei_runs_end,
    refused_pei_calls_change_nothing, run_has_facts, starts_are_printed, starts_at_most_once,
    step_has_facts,
};
pub use sound::{
    actions_are_sound, core_sweeps_are_sound, matches_are_sound, opening_is_sound, pops_are_sound,
    replies_are_sound, starts_keep_sound, steps_keep_sound, sweeps_stay,
};
pub use whole_boot::{boots_end, boots_print_starts};
