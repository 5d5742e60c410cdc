//! A server that is begun.
use crate::start_fault::StartFault;
use pg_names::IndexedTexts;
use pg_pool::PooledTables;
use pg_server::{Config, Server};
use std::fs::Files;
use std::hash::RandomState;
use std::random::RandomSource;
use std::{fs, io};

/// A server whose tenants' records are in one pool.
pub type PooledServer = Server<PooledTables<IndexedTexts>>;

/// The configuration at a path.
pub fn read_config<R: Files + AllocGlobal>(rt: &R, path: &str) -> Result<Config, StartFault> {
    match fs::read(rt, path) {
        Ok(bytes) => Ok(Config::read(rt.alloc(), &bytes)?),
        Err(e) if e.kind() == io::ErrorKind::OutOfMemory => Err(StartFault::OutOfMemory),
        Err(_) => Err(StartFault::Unreadable),
    }
}

/// A server with keys of hashes that the system draws.
pub fn new_server<R: RandomSource + AllocGlobal>(
    rt: &R,
    config: Config,
) -> Result<PooledServer, StartFault> {
    match RandomState::new(rt) {
        Ok(hasher) => Ok(Server::new(rt.alloc(), config, hasher)?),
        Err(_) => Err(StartFault::NoRandomNumbers),
    }
}
