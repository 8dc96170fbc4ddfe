ghost use Rattle.bfgp_outside.specs.Sink.{Puts};

use crate::{Sink, SinkFailed};

/// Puts all of some bytes, in as many puts as the sink wants. A put that fails is not tried again. It takes no memory.
pub fn put_all<K: Sink>(sink: &mut K, bytes: &[u8]) -> Result<(), SinkFailed>
    ensures { Puts K.written K.faults sink.old sink.new result bytes.now }
{
    let mut done = 0;
    while done < bytes.len() {
        done += sink.put(&bytes[done..])?;
    }
    Ok(())
}
