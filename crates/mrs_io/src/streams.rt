//! The standard streams of the process as a source and two sinks. They tell no content.
ghost use Rattle.std.specs.Prelude.{◌≡◌, ◌<◌, None, length, is_ok, IfOk, if◌then◌else◌};
ghost use Rattle.std.specs.Io.{ReadsAtMost, WritesAtMost};
ghost use Rattle.std.specs.Io.KnownBytes.{ReadConsumes, WriteAppends};
ghost use Rattle.spec_io.specs.Faults.{next_count};
ghost use Rattle.mrs_io.specs.Causes.{HasCause};

use crate::adapter::{ReaderSource, WriterSink};
use crate::{Failed, Sink, Source};
use std::io::{Stderr, Stdin, Stdout};
use std::marker::Model;

/// Standard input. Its count rises at each error of the system.
#[derive(Drop)]
pub struct StdinSource {
    stdin: ReaderSource<Stdin>,
}

/// Standard output, with no buffer. Its count rises at each error of the system, and where a write takes nothing.
#[derive(Drop)]
pub struct StdoutSink {
    stdout: WriterSink<Stdout>,
}

/// Standard error, with no buffer. Its count rises at each error of the system, and where a write takes nothing.
#[derive(Drop)]
pub struct StderrSink {
    stderr: WriterSink<Stderr>,
}

impl Model for StdinSource {
    ghost use Rattle.std.specs.Prelude.{ℕ};

    ghost Value = { ℕ };

    ghost view = { λ s. s.stdin.faults };
}

impl Model for StdoutSink {
    ghost use Rattle.std.specs.Prelude.{ℕ};

    ghost Value = { ℕ };

    ghost view = { λ s. s.stdout.faults };
}

impl Model for StderrSink {
    ghost use Rattle.std.specs.Prelude.{ℕ};

    ghost Value = { ℕ };

    ghost view = { λ s. s.stderr.faults };
}

impl StdinSource {
    /// Standard input, with no fault yet. It takes no memory.
    pub fn new(rt: &HostRuntime) -> Self
        ensures { result ≡ 0 }
    {
        StdinSource {
            stdin: ReaderSource::new(rt.stdin()),
        }
    }
}

impl StdoutSink {
    /// Standard output, with no fault yet. It takes no memory.
    pub fn new(rt: &HostRuntime) -> Self
        ensures { result ≡ 0 }
    {
        StdoutSink {
            stdout: WriterSink::new(rt.stdout()),
        }
    }
}

impl StderrSink {
    /// Standard error, with no fault yet. It takes no memory.
    pub fn new(rt: &HostRuntime) -> Self
        ensures { result ≡ 0 }
    {
        StderrSink {
            stderr: WriterSink::new(rt.stderr()),
        }
    }
}

impl Source for StdinSource {
    ghost reading = { λ count. record { left = None; faults = count } };

    fn read(&mut self, buf: &mut [u8]) -> Result<usize, Failed>
        ensures bound { ReadsAtMost result buf.new }
        ensures bytes { ReadConsumes None None result buf.new }
        ensures cause { HasCause self.old self.new result }
        ensures count { self.new ≡ (if is_ok result then self.old else next_count self.old) }
    {
        self.stdin.read(buf)
    }
}

impl Sink for StdoutSink {
    ghost writing = { λ count. record { taken = None; faults = count } };

    fn write(&mut self, bytes: &[u8]) -> Result<usize, Failed>
        ensures bound { WritesAtMost result bytes.now }
        ensures some { 0 < length bytes.now → IfOk result (λ count. 0 < count) }
        ensures bytes { WriteAppends None None result bytes.now }
        ensures cause { HasCause self.old self.new result }
        ensures count { self.new ≡ (if is_ok result then self.old else next_count self.old) }
    {
        self.stdout.write(bytes)
    }
}

impl Sink for StderrSink {
    ghost writing = { λ count. record { taken = None; faults = count } };

    fn write(&mut self, bytes: &[u8]) -> Result<usize, Failed>
        ensures bound { WritesAtMost result bytes.now }
        ensures some { 0 < length bytes.now → IfOk result (λ count. 0 < count) }
        ensures bytes { WriteAppends None None result bytes.now }
        ensures cause { HasCause self.old self.new result }
        ensures count { self.new ≡ (if is_ok result then self.old else next_count self.old) }
    {
        self.stderr.write(bytes)
    }
}
