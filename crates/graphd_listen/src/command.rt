//! The words of the command line.
use pg_listen::Limits;
use std::net::SocketAddr;

const MOST_CLIENTS: u64 = 65_536;

const MOST_SECONDS: u64 = 86_400;

/// How many seconds what was done may be on no disk.
const MOST_SYNC_SECONDS: u64 = 60;

/// How many bytes of replies may wait for being taken, over all clients.
const MOST_WAITING: usize = 268_435_456;

/// How many of one tenant's.
const MOST_WAITING_OF_TENANT: usize = 33_554_432;

/// How many bytes of records may wait before they are written.
const MOST_UNSETTLED: usize = 4_194_304;

/// No configuration has more of them.
const MOST_TENANTS: usize = 4_096;

/// What the program is asked for, with the path of its configuration.
#[derive(Clone, Copy)]
pub(crate) enum Command<'a> {
    /// To look whether the configuration is good.
    Check {
        config: &'a str,
    },
    Listen {
        config: &'a str,
        address: SocketAddr,
        options: Options<'a>,
    },
}

/// What the options set, and nothing where one is left out.
#[derive(Clone, Copy)]
pub(crate) struct Options<'a> {
    clients: Option<u64>,
    patience: Option<u64>,
    tenant_clients: Option<u64>,
    keep_open: bool,
    log: Option<&'a str>,
    metrics: Option<SocketAddr>,
    journal: Option<&'a str>,
    sync: Option<Sync>,
}

/// When requests that are done are on the disk.
#[derive(Clone, Copy)]
pub(crate) enum Sync {
    /// Each before the next one is answered.
    Every,
    /// All that were answered before any reply is sent.
    Turn,
    /// At most so many seconds behind the reply.
    Seconds(u64),
}

/// The command of these words behind the program's name, if they are one.
pub(crate) fn command_of(words: &[String]) -> Option<Command<'_>> {
    match words {
        [flag, config] if flag.as_str() == "--check" => Some(Command::Check {
            config: config.as_str(),
        }),
        [config, address, options @ ..] => Some(Command::Listen {
            config: config.as_str(),
            address: address.as_str().parse().ok()?,
            options: options_of(options)?,
        }),
        _ => None,
    }
}

impl<'a> Options<'a> {
    /// Sets the option of this name, unless it is set.
    fn set(&mut self, name: &str, value: &'a str) -> Option<()> {
        match name {
            "--clients" => set_once(&mut self.clients, number_of(value, MOST_CLIENTS)?),
            "--patience" => set_once(&mut self.patience, number_of(value, MOST_SECONDS)?),
            "--tenant-clients" => set_once(
                &mut self.tenant_clients,
                number_of(value, MOST_CLIENTS)?,
            ),
            "--log" => set_once(&mut self.log, value),
            "--metrics" => set_once(&mut self.metrics, value.parse().ok()?),
            "--journal" => set_once(&mut self.journal, value),
            "--sync" => set_once(&mut self.sync, sync_of(value)?),
            _ => None,
        }
    }

    /// Sets the option that has no value, unless it is set.
    fn keep_open(&mut self) -> Option<()> {
        if self.keep_open {
            return None;
        }
        self.keep_open = true;
        Some(())
    }

    /// What clients may take.
    pub(crate) fn limits(&self) -> Limits {
        let clients = self.clients.unwrap_or(1_024) as usize;
        Limits {
            clients,
            tenant_clients: match self.tenant_clients {
                Some(most) => most as usize,
                None => clients,
            },
            patience: self.patience.unwrap_or(30).saturating_mul(1_000_000),
            waiting: MOST_WAITING,
            tenant_waiting: MOST_WAITING_OF_TENANT,
            unsettled: match self.sync {
                Some(Sync::Every) => 1,
                Some(Sync::Turn | Sync::Seconds(_)) | None => MOST_UNSETTLED,
            },
            // (ticks are a second apart)
            delay: match self.sync {
                Some(Sync::Seconds(seconds)) => seconds.saturating_sub(1).saturating_mul(1_000_000),
                _ => 0,
            },
            keep_open: self.keep_open,
            left_open: if self.journal.is_some() {
                MOST_TENANTS
            } else {
                0
            },
        }
    }

    /// The path of the log, or a dash.
    pub(crate) fn log(&self) -> Option<&'a str> {
        self.log
    }

    /// The path of the journal.
    pub(crate) fn journal(&self) -> Option<&'a str> {
        self.journal
    }

    /// Whether replies leave before what was done is in the journal.
    pub(crate) fn is_trailing(&self) -> bool {
        matches!(self.sync, Some(Sync::Seconds(_)))
    }

    /// Where the metrics are told.
    pub(crate) fn metrics(&self) -> Option<SocketAddr> {
        self.metrics
    }
}

fn set_once<T: Copy>(option: &mut Option<T>, value: T) -> Option<()> {
    if option.is_some() {
        return None;
    }
    *option = Some(value);
    Some(())
}

/// The options in these words, each at most once.
fn options_of(words: &[String]) -> Option<Options<'_>> {
    let mut options = Options {
        clients: None,
        patience: None,
        tenant_clients: None,
        keep_open: false,
        log: None,
        metrics: None,
        journal: None,
        sync: None,
    };
    let mut left = words;
    for _taken in 0..words.len() {
        left = match left {
            [] => break,
            [name, more @ ..] if name.as_str() == "--keep-open" => {
                options.keep_open()?;
                more
            }
            [name, value, more @ ..] => {
                options.set(name.as_str(), value.as_str())?;
                more
            }
            _ => return None,
        };
    }
    if options.sync.is_some() && options.journal.is_none() {
        return None;
    }
    Some(options)
}

fn sync_of(word: &str) -> Option<Sync> {
    match word {
        "every" => Some(Sync::Every),
        "turn" => Some(Sync::Turn),
        _ => Some(Sync::Seconds(number_of(word, MOST_SYNC_SECONDS)?)),
    }
}

/// One or more ASCII digits as a number from one to the greatest.
fn number_of(text: &str, most: u64) -> Option<u64> {
    // (`parse` lets a plus stand first)
    if text.starts_with('+') {
        return None;
    }
    let number: u64 = text.parse().ok()?;
    if number == 0 || most < number {
        return None;
    }
    Some(number)
}
