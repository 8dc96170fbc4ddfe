use crate::checks::{check_bytes, check_value};
use bfgp_outside::{MemorySink, RealSink, put_all};
use flag_rules::OutOfMemory;
use std::alloc::Global;
use std::process::Abort;

// The room of a sink, the most that it takes a put, the put that fails, whether all is put, and what is written.
type Putting = (usize, usize, Option<u64>, bool, &'static str);

const PUTS: &[Putting] = &[
    (9, 2, None, true, "12345"),
    (5, 9, Some(1), true, "12345"),
    (3, 2, None, false, "123"),
    (9, 2, Some(1), false, "12"),
];

/// A sink of some room that takes at most so many bytes a put, and at least one, and of which a put may fail.
fn sink_of(
    alloc: Global,
    room: usize,
    most: usize,
    failing: Option<u64>,
) -> Result<MemorySink, OutOfMemory> {
    let mut sink = MemorySink::new(alloc, room, most.max(1))?;
    fail_at(&mut sink, failing)?;
    Ok(sink)
}

fn fail_at(sink: &mut MemorySink, failing: Option<u64>) -> Result<(), OutOfMemory> {
    match failing {
        Some(call) => sink.fail_at(call),
        None => Ok(()),
    }
}

fn check_put<R: Abort>(rt: &R, sink: &mut MemorySink, want: bool, written: &str) {
    let is_put = put_all(sink, b"12345").is_ok();
    check_value(rt, written, &is_put, &want);
    check_bytes(rt, sink.written(), written.as_bytes());
}

#[test]
fn bytes_are_put_in_short_puts_until_one_fails(rt: HostRuntime) -> Result<(), OutOfMemory> {
    for &(room, most, failing, want, written) in PUTS {
        let mut sink = sink_of(rt.alloc(), room, most, failing)?;
        check_put(&rt, &mut sink, want, written);
    }
    Ok(())
}

#[test]
fn a_line_is_put_to_the_output(rt: HostRuntime) {
    let mut sink = RealSink::new(&rt);
    let put = put_all(&mut sink, b"a line of the real sink\n");
    check_value(&rt, "output", &put, &Ok(()));
}
