//! A reader or a writer that counts its faults.
ghost use Rattle.std.specs.Prelude.{◌≡◌, ◌<◌, ◌≤◌, length, IfOk, OnOk, OnErr};
ghost use Rattle.std.specs.Io.{ReadsAtMost};
ghost use Rattle.std.specs.Io.KnownBytes.{ReadConsumes, WriteAppends};
ghost use Rattle.pg_server.specs.Counts.{inner_of, faults_of, next_count};

use std::io::{Read, Write};

/// The reader or the writer has failed.
#[derive(Clone, Copy)]
pub struct DeviceFault;

/// A reader or a writer, and how often it has failed. The count goes round after 2^64 faults.
#[derive(Drop)]
pub struct Counted<T> {
    inner: T,
    faults: u64,
}

impl<T> Counted<T> {
    /// Takes a reader or a writer that hasn't failed yet.
    pub fn new(inner: T) -> Self
        ensures inner { inner_of result ≡ inner }
        ensures faults { faults_of result ≡ 0 }
    {
        Counted { inner, faults: 0 }
    }

    /// How often it has failed.
    pub fn faults(&self) -> u64
        ensures { result ≡ faults_of self.now }
    {
        self.faults
    }

    /// The reader or the writer again, as the calls left it.
    pub fn into_inner(self) -> T
        ensures { result ≡ inner_of self }
    {
        self.inner
    }
}

impl<R: Read> Counted<R> {
    /// One read. Each error is a fault, also one that could be tried again.
    pub fn read(&mut self, buf: &mut [u8]) -> Result<usize, DeviceFault>
        ensures bound { ReadsAtMost result buf.new }
        ensures bytes { ReadConsumes
            (R.remaining (inner_of self.old)) (R.remaining (inner_of self.new)) result buf.new }
        ensures ok { OnOk result (faults_of self.new ≡ faults_of self.old) }
        ensures fault { OnErr result (faults_of self.new ≡ next_count (faults_of self.old)) }
    {
        match self.inner.read(buf) {
            Ok(n) => Ok(n),
            Err(_) => {
                self.faults = self.faults.wrapping_add(1);
                Err(DeviceFault)
            }
        }
    }
}

impl<W: Write> Counted<W> {
    /// One write. A write that takes no byte is a fault too.
    pub fn write(&mut self, buf: &[u8]) -> Result<usize, DeviceFault>
        requires { 0 < length buf.now }
        ensures bound { IfOk result (λ n. (0 < n) × (n ≤ length buf.now)) }
        ensures bytes { WriteAppends
            (W.contents (inner_of self.old)) (W.contents (inner_of self.new)) result buf.now }
        ensures ok { OnOk result (faults_of self.new ≡ faults_of self.old) }
        ensures fault { OnErr result (faults_of self.new ≡ next_count (faults_of self.old)) }
    {
        match self.inner.write(buf) {
            Ok(n) if n > 0 => Ok(n),
            _ => {
                self.faults = self.faults.wrapping_add(1);
                Err(DeviceFault)
            }
        }
    }
}
