//! The graph server as a program: frames in, reply frames out, over standard input and output or connections.
#![tactic(auto)]

mod command;
mod fault;
mod outcome;
mod records;

use command::{Command, command_of};
use fault::ProgramFault;
use outcome::{line_of, status_of};
use pg_server::{Counted, CountedListener, End, ServeFault, serve_on};
use pg_start::{PooledServer, StartFault, new_server, own_address, read_config, take_stack};
use std::io::BufReader;
use std::mem::ManuallyDrop;
use std::net::TcpListener;
use std::process::ExitCode;
use std::{env, io};

fn main(rt: HostRuntime) -> ExitCode {
    let outcome = run_words(&rt);
    let line = line_of(&outcome);
    if !line.is_empty() {
        // Where even standard error fails, the status is all that can be told.
        let _ = eprintln!(rt; "graphd: {line}");
    }
    ExitCode::from(status_of(&outcome))
}

/// Does what the words of the command line ask for.
fn run_words(rt: &HostRuntime) -> Result<End, ProgramFault> {
    let words: Vec<String> = env::args(rt)?.skip(1).collect(rt.alloc())?;
    // (their number is what no compiler knows)
    if !take_stack(words.len() as u64) {
        return Err(StartFault::OutOfMemory.into());
    }
    match command_of(&words) {
        Some(command) => serve(rt, command),
        None => Err(ProgramFault::Usage),
    }
}

/// Serves standard input to standard output until its end, or so many connections at a port of this machine.
fn serve(rt: &HostRuntime, command: Command<'_>) -> Result<End, ProgramFault> {
    let path = match command {
        Command::Run { config } => config,
        Command::Serve { config, .. } => config,
    };
    let config = read_config(rt, path)?;
    // Its memory is left to the end of the process: to let go of each record would only take time.
    let mut server: ManuallyDrop<PooledServer> = ManuallyDrop::new(new_server(rt, config)?);
    match command {
        Command::Run { .. } => {
            let mut reader = Counted::new(BufReader::new(rt.alloc(), rt.reader())?);
            let mut writer = Counted::new(io::writer(rt));
            Ok(server.run(&mut reader, &mut writer, u64::MAX))
        }
        Command::Serve { port, count, .. } => {
            let Ok(listener) = TcpListener::bind(rt, own_address(port)) else {
                return Err(ServeFault::Accept.into());
            };
            let mut listener = CountedListener::new(&listener);
            serve_on(&mut listener, &mut server, count)?;
            Ok(End::Done)
        }
    }
}
