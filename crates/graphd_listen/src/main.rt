//! The graph server for many clients at once, in one thread over connections that don't wait.
#![tactic(auto)]

mod command;
mod connection;
mod connection_table;
mod connections;
mod counts;
mod fault;
mod lines;
mod log;
mod page;
mod progress;
mod scrape;
mod scrapes;

use command::{Command, Options, command_of};
use connections::Connections;
use fault::ProgramFault;
use log::{Log, Sink};
use pg_journal::DiskFile;
use pg_listen::{
    Difference, Journaled, ListenEnd, Trailing, Unstarted, listen_on, listen_on_journal,
    listen_on_trailing,
};
use pg_server::{Config, TenantNames};
use pg_start::{PooledServer, StartFault, new_server, read_config, take_stack};
use progress::Progress;
use std::env;
use std::fs::OpenOptions;
use std::mem::ManuallyDrop;
use std::net::SocketAddr;
use std::process::ExitCode;

fn main(rt: HostRuntime) -> ExitCode {
    match run_words(&rt) {
        Ok(()) => ExitCode::from(0),
        Err(fault) => {
            // Where even standard error fails, the status is all that can be told.
            let _ = eprintln!(rt; "graphd_listen: {}", fault.line());
            ExitCode::from(fault.status())
        }
    }
}

/// Does what the words of the command line ask for.
fn run_words(rt: &HostRuntime) -> Result<(), ProgramFault> {
    let words: Vec<String> = env::args(rt)?.skip(1).collect(rt.alloc())?;
    // (their number is what no compiler knows)
    if !take_stack(words.len() as u64) {
        return Err(StartFault::OutOfMemory.into());
    }
    match command_of(&words) {
        Some(Command::Check { config }) => {
            read_config(rt, config)?;
            let _ = println!(rt; "graphd_listen: the configuration is good");
            Ok(())
        }
        Some(
            Command::Listen {
                config,
                address,
                options,
            },
        ) => serve(rt, config, address, options),
        None => Err(ProgramFault::Usage),
    }
}

/// Serves clients at the address until standard input has a line or ends.
fn serve(
    rt: &HostRuntime,
    config: &str,
    address: SocketAddr,
    options: Options<'_>,
) -> Result<(), ProgramFault> {
    let config = read_config(rt, config)?;
    match options.journal() {
        Some(path) => {
            let names = names_of(rt, &config)?;
            let server = new_server(rt, config)?;
            serve_kept(rt, server, names, path, address, options)
        }
        None => serve_unkept(rt, new_server(rt, config)?, address, options),
    }
}

/// The tenants' names, by which a journal knows them.
fn names_of(rt: &HostRuntime, config: &Config) -> Result<TenantNames, ProgramFault> {
    match TenantNames::of(rt.alloc(), config)? {
        Some(names) => Ok(names),
        None => Err(ProgramFault::NameTwice),
    }
}

/// Serves clients over a server of which nothing outlasts the process.
fn serve_unkept(
    rt: &HostRuntime,
    server: PooledServer,
    address: SocketAddr,
    options: Options<'_>,
) -> Result<(), ProgramFault> {
    // Its memory is left to the end of the process: to let go of each record would only take time.
    let mut server: ManuallyDrop<PooledServer> = ManuallyDrop::new(server);
    let mut connections = begin(rt, address, options)?;
    let end = listen_on(
        rt.alloc(),
        &mut connections,
        &mut server,
        options.limits(),
        u64::MAX,
    );
    finish(&mut connections, end)
}

/// Serves clients over a server that answers again what its journal has, and keeps in it what it does.
fn serve_kept(
    rt: &HostRuntime,
    server: PooledServer,
    names: TenantNames,
    path: &str,
    address: SocketAddr,
    options: Options<'_>,
) -> Result<(), ProgramFault> {
    let Ok(file) = DiskFile::open(rt, path, folder_of(path)) else {
        return Err(ProgramFault::OpenJournal);
    };
    let progress = Progress::new(rt);
    let (service, requests, progress) = match Journaled::start(
        rt.alloc(),
        server,
        names,
        file,
        progress,
    ) {
        Ok(started) => started,
        Err(unstarted) => return Err(fault_of(rt, unstarted)),
    };
    progress.tell();
    say_answered(rt, requests);
    let mut connections = begin(rt, address, options)?;
    connections.say_answered(requests);
    let end = if options.is_trailing() {
        let mut service = ManuallyDrop::new(Trailing::new(service));
        listen_on_trailing(
            rt.alloc(),
            &mut connections,
            &mut service,
            options.limits(),
            u64::MAX,
        )
    } else {
        let mut service = ManuallyDrop::new(service);
        listen_on_journal(
            rt.alloc(),
            &mut connections,
            &mut service,
            options.limits(),
            u64::MAX,
        )
    };
    finish(&mut connections, end)
}

fn say_answered(rt: &HostRuntime, requests: u64) {
    let _ = println!(rt; "graphd_listen: answered {requests} requests of the journal again");
}

/// Why a server isn't started with its journal; it is told how far it came, and where in the file.
fn fault_of(rt: &HostRuntime, unstarted: Unstarted) -> ProgramFault {
    let (requests, at) = (unstarted.requests, unstarted.at);
    let _ = eprintln!(rt;
        "graphd_listen: answered {requests} requests of the journal again, up to byte {at}, and no further one"
    );
    if unstarted.is_unknown {
        let _ = eprintln!(rt;
            "graphd_listen: the request at byte {at} has a token that no tenant of the configuration has, or its tenant has none"
        );
    }
    if let Some(difference) = unstarted.difference {
        say_difference(rt, difference);
    }
    ProgramFault::Journal(unstarted.fault)
}

fn say_difference(rt: &HostRuntime, difference: Difference) {
    let (before, now) = (difference.before, difference.now);
    let (length, digest) = (before.length, before.digest);
    let (length_now, digest_now) = (now.length, now.digest);
    let _ = eprintln!(rt;
        "graphd_listen: the reply had {length} bytes with digest {digest} before, and has {length_now} bytes with digest {digest_now} now"
    );
}

/// The folder of a file's path.
fn folder_of(path: &str) -> &str {
    match path.rsplit_once('/') {
        Some(("", _)) => "/",
        Some((folder, _)) => folder,
        None => ".",
    }
}

/// Tells what is left to tell, and how it ended.
fn finish(
    connections: &mut Connections<'_, HostRuntime>,
    end: ListenEnd,
) -> Result<(), ProgramFault> {
    connections.finish();
    connections.say_stop(word_of(end));
    match end {
        ListenEnd::Stopped => Ok(()),
        ListenEnd::NotKept => Err(ProgramFault::NotKept),
        ListenEnd::Enough | ListenEnd::Failed => Err(ProgramFault::Wait),
        ListenEnd::NoMemory => Err(StartFault::OutOfMemory.into()),
    }
}

/// Listens, and says where.
fn begin<'a>(
    rt: &'a HostRuntime,
    address: SocketAddr,
    options: Options<'_>,
) -> Result<Connections<'a, HostRuntime>, ProgramFault> {
    let log = log_at(rt, options.log())?;
    let Ok(mut connections) = Connections::bind(rt, rt.alloc(), address, rt, log) else {
        return Err(ProgramFault::Listen);
    };
    if let Some(address) = options.metrics() {
        let Ok(address) = connections.tell_metrics(address, rt) else {
            return Err(ProgramFault::Listen);
        };
        let _ = println!(rt; "graphd_listen: metrics at {address}");
    }
    if let Ok(address) = connections.address() {
        connections.say_start(address);
        let _ = println!(rt; "graphd_listen: ready at {address}");
    }
    Ok(connections)
}

/// The log at a path, where a dash is standard error.
fn log_at(rt: &HostRuntime, path: Option<&str>) -> Result<Log, ProgramFault> {
    let sink = match path {
        None => Sink::Nowhere,
        Some("-") => Sink::Stderr(rt.stderr()),
        Some(path) => match OpenOptions::new().append(true).create(true).open(rt, path) {
            Ok(file) => Sink::File(file),
            Err(_) => return Err(ProgramFault::Log),
        },
    };
    Ok(Log::new(rt.alloc(), sink))
}

/// Why the program ends, in a word.
fn word_of(end: ListenEnd) -> &'static str {
    match end {
        ListenEnd::Stopped => "asked",
        ListenEnd::Enough | ListenEnd::Failed => "failed",
        ListenEnd::NotKept => "not_kept",
        ListenEnd::NoMemory => "no_memory",
    }
}
