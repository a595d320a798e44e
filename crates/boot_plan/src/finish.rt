// The plan that a draft has become after the last line.
ghost use Rattle.std.specs.Prelude.{◌≡◌, ◌<◌, ◌≤◌, ◌+◌, ◌^◌, List, IfOk, IfErr, IfSome, Some, option_to_list};
ghost use Rattle.boot_plan.specs.{Said.Said, Draft.Keeps, Draft.IsInRange, Range.IsPlanInRange};
ghost use Rattle.boot_plan.specs.PlanText.{memory_fault, value_or, end_fault, Makes};

use crate::draft::{Amount, Area, Draft};
use crate::fault::{PlanCause, PlanFault};
use crate::limits::{DEFAULT_FUEL, LEAST_TEMP, MOST_END, MOST_FUEL, MOST_PAGES};
use crate::plan::Plan;
use pi_base::Span;

// What is wrong with memory: some address is in both, or the page region leaves too little of temporary RAM.
fn memory_fault(temp: &Area, ram: &Area, pages: &Option<Amount>) -> Option<PlanFault>
    requires temp { temp.now.base + temp.now.size ≤ MOST_END }
    requires ram { ram.now.base + ram.now.size ≤ MOST_END }
    requires pages { IfSome pages.now (λ pages. pages.value ≤ MOST_PAGES) }
    ensures { result ≡ memory_fault temp.now ram.now (option_to_list pages.now) }
{
    if temp.base < ram.base + ram.size && ram.base < temp.base + temp.size {
        return Some(PlanFault {
            line: temp.line.max(ram.line),
            cause: PlanCause::Overlap,
        });
    }
    match pages {
        Some(pages) if temp.size < pages.value + LEAST_TEMP => Some(PlanFault {
            line: pages.line,
            cause: PlanCause::Room,
        }),
        _ => None,
    }
}

// The fuel of the `fuel` line, or the default.
fn fuel_of(fuel: Option<Amount>) -> u32
    requires { IfSome fuel (λ fuel. fuel.value ≤ MOST_FUEL) }
    ensures { result ≡ value_or DEFAULT_FUEL (option_to_list fuel) }
{
    match fuel {
        Some(fuel) => fuel.value as u32,
        None => DEFAULT_FUEL,
    }
}

// The bytes of early pages from their line, or 0.
fn pages_of(pages: Option<Amount>) -> u64
    ensures { result ≡ value_or 0 (option_to_list pages) }
{
    match pages {
        Some(pages) => pages.value,
        None => 0,
    }
}

// The addresses of memory.
fn span_of(area: Area) -> Span
    requires { area.base + area.size ≤ MOST_END }
    ensures base { result.base ≡ area.base }
    ensures len { result.len ≡ area.size }
{
    Span {
        base: area.base,
        len: area.size,
    }
}

// The plan after so many lines, or what is missing.
pub(crate) fn finish(draft: Draft, count: u32) -> Result<Plan, PlanFault>
    requires range { IsInRange draft }
    requires count { count + 1 < 2 ^ 32 }
    ensures plan { IfOk result (λ plan. (all : List Said) → Keeps all draft → Makes count all plan) }
    ensures range { IfOk result IsPlanInRange }
    ensures fault { IfErr result (λ fault. (all : List Said) → Keeps all draft → end_fault count all ≡ Some fault) }
{
    let Draft {
        temp,
        ram,
        volumes,
        fuel,
        pages,
    } = draft;
    let (Some(temp), Some(ram), false) = (temp, ram, volumes.is_empty()) else {
        return Err(PlanFault {
            line: count + 1,
            cause: PlanCause::Missing,
        });
    };
    match memory_fault(&temp, &ram, &pages) {
        Some(fault) => Err(fault),
        None => Ok(Plan {
            temp: span_of(temp),
            ram: span_of(ram),
            volumes,
            fuel: fuel_of(fuel),
            pages: pages_of(pages),
        }),
    }
}
