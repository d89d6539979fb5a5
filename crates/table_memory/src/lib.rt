// The tables of a plan, with memory of their own.
#![tactic(auto)]

ghost use Rattle.std.specs.Prelude.{◌≡◌, IfOk, length};

mod blanks;

use crate::blanks::{fault_table, queue_table, series_table};
use owed::Line;
use report::FaultEntry;
use runs::Places;
use series::Series;
use std::alloc::{AllocError, Global};

// The tables of a plan, which their owner lends to it at each call.
#[derive(Drop)]
pub struct TableMemory {
    pub series: Vec<Series>,
    pub faults: Vec<FaultEntry>,
    pub queue: Vec<Line>,
}

impl TableMemory {
    // Tables of so many places. What the places hold says nothing: a plan writes each before it reads it.
    pub fn new(heap: Global, places: Places) -> Result<TableMemory, AllocError>
        ensures series { IfOk result (λ tables. length tables.series.items ≡ places.series) }
        ensures faults { IfOk result (λ tables. length tables.faults.items ≡ places.faults) }
        ensures queue { IfOk result (λ tables. length tables.queue.items ≡ places.queue) }
    {
        Ok(TableMemory {
            series: series_table(heap, places.series)?,
            faults: fault_table(heap, places.faults)?,
            queue: queue_table(heap, places.queue)?,
        })
    }
}
