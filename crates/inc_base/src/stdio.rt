ghost use Rattle.std.specs.Prelude.{◌≡◌, ◌<◌, ℕ, List, length, take, Option, None, Ok, OnErr, IfOk, IsErr};
ghost use Rattle.std.specs.Io.{ReadsAtMost, WritesAtMost};
ghost use Rattle.std.specs.Io.KnownBytes.{ReadConsumes, WriteAppends};
ghost use Rattle.inc_base.specs.Outside.{CountsFault, HasCause, KeepsTelling};

use crate::outside::{Failed, Sink, Source};
use std::io::{Read, Write};
use std::marker::Model;

/// A source over a reader of std, which tells nothing. Where there is no reader, as of a file that could
/// not be opened, each call with a slice that isn't empty fails. Contracts see the reader and the count.
#[derive(Drop)]
pub struct StdSource<R> {
    reader: Option<R>,
    faults: u64,
}

impl<R> Model for StdSource<R> {
    ghost use Rattle.std.specs.Prelude.{Option, ℕ};
    ghost use Rattle.std.specs.Coded.{coded_option, coded×, coded_ℕ};

    ghost Value = { Option R × ℕ };

    ghost coded = { coded× (coded_option R.code) coded_ℕ };

    ghost view = { λ s. (s.reader, s.faults) };
}

impl<R> StdSource<R> {
    /// A source over this reader.
    pub fn new(reader: Option<R>) -> StdSource<R>
        ensures { result ≡ (reader, 0) }
    {
        StdSource { reader, faults: 0 }
    }
}

impl<R: Read> Source for StdSource<R> {
    ghost left = { λ _. None };

    ghost faults = { λ s. s.1 };

    fn read(&mut self, into: &mut [u8]) -> Result<usize, Failed>
        ensures bound { ReadsAtMost result into.new }
        ensures bytes { ReadConsumes None None result into.new }
        ensures tells { KeepsTelling {T = List ℕ} None None }
        ensures empty { length into.old ≡ 0 → (result ≡ Ok 0) × (self.new ≡ self.old) }
        ensures cause { HasCause self.old.1 self.new.1 result }

        // Where there is no reader each call with a slice that isn't empty fails. The count rises by one where
        // a call fails, and else stays.
        ensures none { self.old.0 ≡ None → 0 < length into.old → IsErr result }
        ensures stays { self.old.0 ≡ None → self.new.0 ≡ None }
        ensures count { CountsFault self.old.1 self.new.1 result }
    {
        if into.is_empty() {
            return Ok(0);
        }
        if let Some(reader) = &mut self.reader {
            if let Ok(count) = reader.read(into) {
                return Ok(count);
            }
        }
        self.faults = self.faults.saturating_add(1);
        Err(Failed)
    }
}

/// A sink over a writer of std, which tells nothing. Where there is no writer, as of a file that could
/// not be made, each call with a piece that isn't empty fails. So does one of which the writer takes
/// nothing. Contracts see the writer and the count.
#[derive(Drop)]
pub struct StdSink<W> {
    writer: Option<W>,
    faults: u64,
}

impl<W> Model for StdSink<W> {
    ghost use Rattle.std.specs.Prelude.{Option, ℕ};
    ghost use Rattle.std.specs.Coded.{coded_option, coded×, coded_ℕ};

    ghost Value = { Option W × ℕ };

    ghost coded = { coded× (coded_option W.code) coded_ℕ };

    ghost view = { λ s. (s.writer, s.faults) };
}

impl<W> StdSink<W> {
    /// A sink over this writer.
    pub fn new(writer: Option<W>) -> StdSink<W>
        ensures { result ≡ (writer, 0) }
    {
        StdSink { writer, faults: 0 }
    }
}

impl<W: Write> Sink for StdSink<W> {
    ghost held = { λ _. None };

    ghost faults = { λ s. s.1 };

    fn write(&mut self, from: &[u8]) -> Result<usize, Failed>
        ensures bound { WritesAtMost result from.now }
        ensures bytes { WriteAppends None None result from.now }
        ensures tells { KeepsTelling {T = List ℕ} None None }
        ensures takes { 0 < length from.now → IfOk result (λ n. 0 < n) }
        ensures empty { length from.now ≡ 0 → (result ≡ Ok 0) × (self.new ≡ self.old) }
        ensures cause { HasCause self.old.1 self.new.1 result }

        // Where there is no writer each call with a piece that isn't empty fails. The count rises by one where
        // a call fails, and else stays.
        ensures none { self.old.0 ≡ None → 0 < length from.now → IsErr result }
        ensures stays { self.old.0 ≡ None → self.new.0 ≡ None }
        ensures count { CountsFault self.old.1 self.new.1 result }
    {
        if from.is_empty() {
            return Ok(0);
        }
        if let Some(writer) = &mut self.writer {
            if let Ok(count) = writer.write(from) {
                if count > 0 {
                    return Ok(count);
                }
            }
        }
        self.faults = self.faults.saturating_add(1);
        Err(Failed)
    }
}
