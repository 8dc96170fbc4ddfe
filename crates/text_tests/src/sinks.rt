//! Sinks in memory, to which little is written.

ghost use Rattle.std.specs.Prelude.{◌<◌};

use bfgp_outside::MemorySink;
use flag_rules::OutOfMemory;
use std::alloc::Global;

const ROOM: usize = 1024;

/// A sink that takes at most so many bytes a put.
pub fn sink_of(alloc: Global, most: usize) -> Result<MemorySink, OutOfMemory>
    requires { 0 < most }
{
    MemorySink::new(alloc, ROOM, most)
}

/// The same, where one put fails.
pub fn failing_sink(alloc: Global, most: usize, call: u64) -> Result<MemorySink, OutOfMemory>
    requires { 0 < most }
{
    let mut sink = sink_of(alloc, most)?;
    sink.fail_at(call)?;
    Ok(sink)
}
