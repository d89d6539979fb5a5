// Opening a plan.
ghost use Rattle.std.specs.Prelude.{◌≡◌};

use crate::output::say_refusal;
use crate::standing::Standing;
use plan::Plan;
use plan_commands::Sizes;
use runs::Places;
use std::io;
use table_memory::TableMemory;

// Tables of these sizes have so many places.
pub(crate) fn places_of(sizes: Sizes) -> Places
    ensures series { result.series ≡ sizes.series }
    ensures faults { result.faults ≡ sizes.faults }
    ensures queue { result.queue ≡ sizes.queue }
{
    Places {
        series: sizes.series,
        faults: sizes.faults,
        queue: sizes.queue,
    }
}

// A plan over a window with tables of these sizes. Where it is refused, it is said why.
pub(crate) fn begin(
    rt: &HostRuntime,
    first: u32,
    last: u32,
    sizes: Sizes,
) -> io::Result<Option<Standing>> {
    match Plan::open(first, last) {
        Ok(plan) => {
            let memory = TableMemory::new(rt.alloc(), places_of(sizes))?;
            Ok(Some(Standing { plan, memory }))
        }
        Err(question) => {
            say_refusal(rt, question.into())?;
            Ok(None)
        }
    }
}

// Opens a plan over a window with tables of these sizes.
pub(crate) fn open(
    rt: &HostRuntime,
    first: u32,
    last: u32,
    sizes: Sizes,
) -> io::Result<Option<Standing>> {
    let begun = begin(rt, first, last, sizes)?;
    if begun.is_some() {
        println!(rt; "opened")?;
    }
    Ok(begun)
}
