ghost use Rattle.std.specs.Prelude.{◌≡◌, ◌+◌, ◌≤◌, [], ◌++◌, length, OnOk};
ghost use Rattle.flag_rules.specs.Line.{line};
ghost use Rattle.bfgp_outside.specs.Sink.{Puts};
ghost use Rattle.program_text.specs.Gathered.{Gathers};

use arrayvec::ArrayVec;
use bfgp_outside::{Sink, SinkFailed, put_all};
use std::marker::Model;

/// How many bytes are gathered at most before they are put.
const MAX_GATHERED: usize = 4096;

/// Bytes on their way to a sink, gathered so that they are put in few pieces. They are put where there is no room for more,
/// and at the end. It takes no memory. Contracts see the bytes that are gathered and not put.
#[derive(Drop)]
pub struct Gathered {
    bytes: ArrayVec<u8, MAX_GATHERED>,
}

impl Model for Gathered {
    ghost use Rattle.std.specs.Prelude.{List, ℕ};

    ghost Value = { List ℕ };

    ghost view = { λ gathered. gathered.bytes.items };
}

impl Gathered {
    /// Nothing gathered.
    pub fn new() -> Gathered
        ensures { result ≡ [] }
    {
        Gathered {
            bytes: ArrayVec::new(),
        }
    }

    /// Gathers some bytes. What was gathered before is put where there is no room for them.
    pub fn add<K: Sink>(&mut self, sink: &mut K, bytes: &[u8]) -> Result<(), SinkFailed>
        ensures { Gathers K.written K.faults sink.old sink.new self.old self.new result bytes.now }
    {
        if bytes.len() <= self.bytes.remaining_capacity() {
            self.keep(bytes);
            return Ok(());
        }
        self.put(sink)?;
        if bytes.len() <= MAX_GATHERED {
            self.keep(bytes);
            return Ok(());
        }
        put_all(sink, bytes)
    }

    /// Gathers a text and the line feed that ends its line.
    pub fn add_line<K: Sink>(&mut self, sink: &mut K, text: &[u8]) -> Result<(), SinkFailed>
        ensures { Gathers K.written K.faults sink.old sink.new self.old self.new result (line text.now) }
    {
        self.add(sink, text)?;
        self.add(sink, b"\n")
    }

    /// Puts what is gathered.
    pub fn put<K: Sink>(&mut self, sink: &mut K) -> Result<(), SinkFailed>
        ensures puts { Puts K.written K.faults sink.old sink.new result self.old }
        ensures none { OnOk result (self.new ≡ []) }
    {
        put_all(sink, self.bytes.as_slice())?;
        self.bytes.clear();
        Ok(())
    }

    // Adds bytes for which there is room.
    fn keep(&mut self, bytes: &[u8])
        requires { length self.old + length bytes.now ≤ MAX_GATHERED }
        ensures { self.new ≡ self.old ++ bytes.now }
    {
        self.bytes.try_extend_from_slice(bytes).unwrap();
    }
}
