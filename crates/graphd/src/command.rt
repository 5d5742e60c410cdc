//! The words of the command line.
ghost use Rattle.std.specs.Prelude.{◌≡◌, ◌^◌, map, option_map, string_bytes};
ghost use Rattle.graphd.specs.Commands.{command_in, command_view, number_in};

/// What the program is asked for, with the path of its configuration.
#[derive(Clone, Copy)]
pub(crate) enum Command<'a> {
    Run {
        config: &'a str,
    },
    Serve {
        config: &'a str,
        port: u16,
        count: u64,
    },
}

/// The command of these words behind the program's name, if they are one.
pub(crate) fn command_of(words: &[String]) -> Option<Command<'_>>
    ensures { option_map command_view result ≡ command_in (map string_bytes words.now) }
{
    match words {
        [verb, config] if verb.as_str() == "run" => Some(Command::Run {
            config: config.as_str(),
        }),
        [verb, config, port, count] if verb.as_str() == "serve" => Some(Command::Serve {
            config: config.as_str(),
            port: port_of(port.as_str())?,
            count: number_of(count.as_str())?,
        }),
        _ => None,
    }
}

/// One or more ASCII digits as a number of 16 bits.
fn port_of(text: &str) -> Option<u16>
    ensures { result ≡ number_in (2 ^ 16) text.now }
{
    u16::try_from(number_of(text)?).ok()
}

/// One or more ASCII digits as a number of 64 bits.
fn number_of(text: &str) -> Option<u64>
    ensures { result ≡ number_in (2 ^ 64) text.now }
{
    // (`parse` lets a plus stand first)
    if text.starts_with('+') {
        None
    } else {
        text.parse().ok()
    }
}
