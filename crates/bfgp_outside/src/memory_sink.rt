ghost use Rattle.std.specs.Prelude.{◌≡◌, ◌↔◌, ◌<◌, ◌≤◌, [], ◌∷◌, ◌++◌, ℕ, length, IfOk, OnOk, OnErr, IsErr, IsTrue};
ghost use Rattle.bfgp_outside.specs.MemorySink.{put_fails, put_count, after_put};

use crate::{Sink, SinkFailed};
use flag_rules::OutOfMemory;
use std::alloc::Global;
use std::marker::Model;

/// A sink in memory of limited room, whose puts can be made short and made to fail. Puts are numbered from 0.
#[derive(Drop)]
pub struct MemorySink {
    taken: Vec<u8>,
    room: usize,
    most: usize,
    failing: Vec<u64>,
    puts: u64,
    faults: u64,
}

impl Model for MemorySink {
    ghost use Rattle.std.specs.Prelude.{◌<◌, ◌≤◌, length, vec_capacity};
    ghost use Rattle.bfgp_outside.specs.MemorySink.{SinkState};

    ghost Value = { SinkState };

    ghost view = { λ sink. record {
      taken = sink.taken.items;
      room = sink.room;
      most = sink.most;
      failing = sink.failing.items;
      puts = sink.puts;
      faults = sink.faults;
    } };

    ghost invariant = { λ sink.
        (length sink.taken.items ≤ sink.room) × (sink.room ≤ vec_capacity sink.taken) × (0 < sink.most) };
}

impl MemorySink {
    /// A sink that has taken nothing and takes at most `most` bytes a put and `room` bytes in all,
    /// for which it takes the memory here.
    pub fn new(alloc: Global, room: usize, most: usize) -> Result<MemorySink, OutOfMemory>
        requires { 0 < most }
        ensures { IfOk result (λ sink.
            sink ≡ record { taken = []; room = room; most = most; failing = []; puts = 0; faults = 0 }) }
    {
        Ok(MemorySink {
            taken: Vec::with_capacity(alloc, room)?,
            room,
            most,
            failing: Vec::new(alloc),
            puts: 0,
            faults: 0,
        })
    }

    /// Makes the put of a number fail, if it has something to take. Puts are numbered from 0, and each call is one.
    pub fn fail_at(&mut self, call: u64) -> Result<(), OutOfMemory>
        ensures ok { OnOk result (self.new ≡ record self.old { failing = self.old.failing ++ call ∷ [] }) }
        ensures err { OnErr result (self.new ≡ self.old) }
    {
        self.failing.push(call)?;
        Ok(())
    }

    /// All that was taken, in order.
    pub fn written(&self) -> &[u8]
        ensures { result.now ≡ self.now.taken }
    {
        &self.taken
    }
}

impl Sink for MemorySink {
    ghost use Rattle.std.specs.Prelude.{Some};

    ghost written = { λ sink. Some sink.taken };

    ghost faults = { λ sink. sink.faults };

    /// Takes as many bytes as one put may and as there is room for. It takes no memory.
    fn put(&mut self, piece: &[u8]) -> Result<usize, SinkFailed>
        ensures fails { IsErr result ↔ IsTrue (put_fails self.old piece.now) }
        ensures some { IfOk result (λ count. 0 < length piece.now → 0 < count) }
        ensures count { IfOk result (λ count. count ≡ put_count self.old piece.now) }
        ensures after { self.new ≡ after_put self.old piece.now result }
    {
        let fails = self.failing.contains(&self.puts) || self.taken.len() >= self.room;
        self.puts = self.puts.saturating_add(1);
        if fails && !piece.is_empty() {
            self.faults = self.faults.saturating_add(1);
            return Err(SinkFailed);
        }
        let count = piece.len().min(self.most).min(self.room - self.taken.len());
        self.taken.extend_from_slice(&piece[..count]).unwrap();
        Ok(count)
    }
}
