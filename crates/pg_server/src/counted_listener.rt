//! A listener that counts what it gives.
ghost use Rattle.std.specs.Prelude.{◌≡◌, OnOk, OnErr};
ghost use Rattle.pg_server.specs.Counts.{accepted_at, faults_at, next_count};

use crate::counted::DeviceFault;
use std::net::{TcpListener, TcpStream};

/// A listener, how many connections it has given, and how often it has failed. The counts go round after 2^64.
#[derive(Drop)]
pub struct CountedListener<'a> {
    listener: &'a TcpListener,
    accepted: u64,
    faults: u64,
}

impl<'a> CountedListener<'a> {
    /// Counts from nothing: a connection that waits already counts once it is given.
    pub fn new(listener: &'a TcpListener) -> Self
        ensures accepted { accepted_at result ≡ 0 }
        ensures faults { faults_at result ≡ 0 }
    {
        CountedListener {
            listener,
            accepted: 0,
            faults: 0,
        }
    }

    /// Waits for the next connection. Each error is a fault, also one that could be tried again.
    pub fn accept(&mut self) -> Result<TcpStream, DeviceFault>
        ensures ok { OnOk result (accepted_at self.new ≡ next_count (accepted_at self.old)) }
        ensures no_fault { OnOk result (faults_at self.new ≡ faults_at self.old) }
        ensures fault { OnErr result (faults_at self.new ≡ next_count (faults_at self.old)) }
        ensures none { OnErr result (accepted_at self.new ≡ accepted_at self.old) }
    {
        match self.listener.accept() {
            Ok((stream, _)) => {
                self.accepted = self.accepted.wrapping_add(1);
                Ok(stream)
            }
            Err(_) => {
                self.faults = self.faults.wrapping_add(1);
                Err(DeviceFault)
            }
        }
    }
}
