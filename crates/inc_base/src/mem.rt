ghost use Rattle.std.specs.Prelude.{◌≡◌, ◌↔◌, ◌<◌, ◌++◌, [], drop, take, min, length, true, Some, Ok, OnOk, OnErr, IfOk, IsErr};
ghost use Rattle.std.specs.Io.{ReadsAtMost, WritesAtMost};
ghost use Rattle.std.specs.Io.KnownBytes.{ReadConsumes, WriteAppends};
ghost use Rattle.inc_base.specs.Outside.{HasCause, KeepsTelling, is_listed, is_failing, failed_call, served_call};

use crate::bytes::Bytes;
use crate::list::List;
use crate::outside::{Failed, Sink, Source};
use std::alloc::Global;
use std::marker::Model;

/// A source in memory, which tells what is left. Its calls with a slice that isn't empty are counted
/// from 0, and exactly those fail whose numbers are listed.
#[derive(Debug, Drop)]
pub struct MemSource {
    bytes: Bytes,
    at: usize,
    failing: List<u32>,
    calls: u64,
    faults: u64,
}

impl Model for MemSource {
    ghost use Rattle.std.specs.Prelude.{drop, length, ◌≤◌};
    ghost use Rattle.inc_base.specs.Outside.{InMemory};

    ghost Value = { InMemory };

    ghost view = { λ s. record { bytes = drop s.at s.bytes; failing = s.failing; calls = s.calls; faults = s.faults } };

    ghost invariant = { λ s. s.at ≤ length s.bytes };
}

impl MemSource {
    /// A source of these bytes that fails at the calls with these numbers.
    pub fn new(bytes: Bytes, failing: List<u32>) -> MemSource
        ensures { result ≡ record { bytes = bytes; failing = failing; calls = 0; faults = 0 } }
    {
        MemSource {
            bytes,
            at: 0,
            failing,
            calls: 0,
            faults: 0,
        }
    }
}

fn is_listed(numbers: &[u32], number: u64) -> bool
    ensures { result ≡ is_listed numbers.now number }
{
    numbers.iter().any(|n| u64::from(*n) == number)
}

/// Copies as much as there is room for.
fn copy_front(from: &[u8], into: &mut [u8]) -> usize
    ensures count { result ≡ min (length from.now) (length into.old) }
    ensures bytes { take result into.new ≡ take result from.now }
{
    let count = from.len().min(into.len());
    into[..count].copy_from_slice(&from[..count]);
    count
}

/// A call with a slice that isn't empty gives as many bytes as are left and as there is room for.
impl Source for MemSource {
    ghost left = { λ s. Some s.bytes };

    ghost faults = { λ s. s.faults };

    fn read(&mut self, into: &mut [u8]) -> Result<usize, Failed>
        ensures bound { ReadsAtMost result into.new }
        ensures bytes { ReadConsumes (Some self.old.bytes) (Some self.new.bytes) result into.new }
        ensures tells { KeepsTelling (Some self.old.bytes) (Some self.new.bytes) }
        ensures empty { length into.old ≡ 0 → (result ≡ Ok 0) × (self.new ≡ self.old) }
        ensures cause { HasCause self.old.faults self.new.faults result }

        // Exactly the calls with the listed numbers fail, and another one gives what there is.
        ensures fails { 0 < length into.old → (IsErr result ↔ (is_failing self.old ≡ true)) }
        ensures err { OnErr result (self.new ≡ failed_call self.old) }
        ensures count { IfOk result (λ n. n ≡ min (length self.old.bytes) (length into.old)) }
        ensures ok { 0 < length into.old → IfOk result (λ n. self.new ≡ served_call self.old (drop n self.old.bytes)) }
    {
        if into.is_empty() {
            return Ok(0);
        }
        let call = self.calls;
        self.calls = call.saturating_add(1);
        if is_listed(self.failing.as_slice(), call) {
            self.faults = self.faults.saturating_add(1);
            return Err(Failed);
        }
        let rest = &self.bytes.as_slice()[self.at..];
        let count = copy_front(rest, into);
        self.at += count;
        Ok(count)
    }
}

/// A sink in memory, which tells what it holds. Its calls with a piece that isn't empty are counted from
/// 0, and those fail whose numbers are listed.
#[derive(Debug, Drop)]
pub struct MemSink {
    bytes: Bytes,
    failing: List<u32>,
    calls: u64,
    faults: u64,
}

impl Model for MemSink {
    ghost use Rattle.inc_base.specs.Outside.{InMemory};

    ghost Value = { InMemory };

    ghost view = { λ s. record { bytes = s.bytes; failing = s.failing; calls = s.calls; faults = s.faults } };
}

impl MemSink {
    /// An empty sink that fails at the calls with these numbers.
    pub fn new(alloc: Global, failing: List<u32>) -> MemSink
        ensures { result ≡ record { bytes = []; failing = failing; calls = 0; faults = 0 } }
    {
        MemSink {
            bytes: Bytes::new(alloc),
            failing,
            calls: 0,
            faults: 0,
        }
    }

    /// What it holds.
    pub fn bytes(&self) -> &[u8]
        ensures { result.now ≡ self.now.bytes }
    {
        self.bytes.as_slice()
    }
}

/// A call takes the whole piece. It fails also where there is no memory for it.
impl Sink for MemSink {
    ghost held = { λ s. Some s.bytes };

    ghost faults = { λ s. s.faults };

    fn write(&mut self, from: &[u8]) -> Result<usize, Failed>
        ensures bound { WritesAtMost result from.now }
        ensures bytes { WriteAppends (Some self.old.bytes) (Some self.new.bytes) result from.now }
        ensures tells { KeepsTelling (Some self.old.bytes) (Some self.new.bytes) }
        ensures takes { 0 < length from.now → IfOk result (λ n. 0 < n) }
        ensures empty { length from.now ≡ 0 → (result ≡ Ok 0) × (self.new ≡ self.old) }
        ensures cause { HasCause self.old.faults self.new.faults result }

        // The calls with the listed numbers fail, and another one takes the whole piece or finds no memory.
        ensures fails { 0 < length from.now → is_failing self.old ≡ true → IsErr result }
        ensures err { OnErr result (self.new ≡ failed_call self.old) }
        ensures whole { IfOk result (λ n. n ≡ length from.now) }
        ensures ok { 0 < length from.now → OnOk result (self.new ≡ served_call self.old (self.old.bytes ++ from.now)) }
    {
        if from.is_empty() {
            return Ok(0);
        }
        let call = self.calls;
        self.calls = call.saturating_add(1);
        if is_listed(self.failing.as_slice(), call) || self.bytes.append(from).is_err() {
            self.faults = self.faults.saturating_add(1);
            return Err(Failed);
        }
        Ok(from.len())
    }
}
