// A line of turnover's input to a command.
ghost use Rattle.std.specs.Prelude.{◌≡◌, None, Some, cond, ltb};
ghost use Rattle.turnover_input.specs.Text.{Means};
ghost use Rattle.turnover_input.specs.Fields.{numbers_of};
ghost use Rattle.turnover_input.specs.Parse.{made, of_one, of_two, of_three, link_of, parse_of};

use crate::fields::{Numbers, read};

// What a line says.
#[derive(Clone, Copy, Debug, PartialEq, Eq)]
pub enum Command {
    Net {
        n: u8,
        t: u16,
    },
    Allow {
        station: u8,
        allowance: u16,
    },
    Link {
        from: u8,
        to: u8,
        limit: u8,
    },
    Enter {
        station: u8,
        register: u32,
    },
    Send {
        station: u8,
        peer: u8,
        register: u32,
    },
    Recv {
        station: u8,
        peer: u8,
    },
    Start {
        station: u8,
    },
}

// The limit that a link line means where it names none.
const DEFAULT_LIMIT: u64 = 16;

// The number of a station.
fn station(i: u64) -> Option<u8>
    ensures { result ≡ cond (ltb i 8) (Some i) None }
{
    if i < 8 { Some(i as u8) } else { None }
}

fn net(rest: &[u8]) -> Option<Command>
    ensures { result ≡ of_two Command.Net (numbers_of rest.now) }
{
    let Numbers::Two(n, t) = read(rest)? else {
        return None;
    };
    Some(Command::Net {
        n: u8::try_from(n).ok()?,
        t: u16::try_from(t).ok()?,
    })
}

fn allow(rest: &[u8]) -> Option<Command>
    ensures { result ≡ of_two Command.Allow (numbers_of rest.now) }
{
    let Numbers::Two(i, a) = read(rest)? else {
        return None;
    };
    Some(Command::Allow {
        station: station(i)?,
        allowance: u16::try_from(a).ok()?,
    })
}

fn limited(i: u64, j: u64, l: u64) -> Option<Command>
    ensures { result ≡ made (Command.Link i j l) }
{
    Some(Command::Link {
        from: station(i)?,
        to: station(j)?,
        limit: u8::try_from(l).ok()?,
    })
}

fn link(rest: &[u8]) -> Option<Command>
    ensures { result ≡ link_of (numbers_of rest.now) }
{
    match read(rest)? {
        Numbers::One(_) => None,
        Numbers::Two(i, j) => limited(i, j, DEFAULT_LIMIT),
        Numbers::Three(i, j, l) => limited(i, j, l),
    }
}

fn enter(rest: &[u8]) -> Option<Command>
    ensures { result ≡ of_two Command.Enter (numbers_of rest.now) }
{
    let Numbers::Two(i, reg) = read(rest)? else {
        return None;
    };
    Some(Command::Enter {
        station: station(i)?,
        register: u32::try_from(reg).ok()?,
    })
}

fn send(rest: &[u8]) -> Option<Command>
    ensures { result ≡ of_three Command.Send (numbers_of rest.now) }
{
    let Numbers::Three(i, j, reg) = read(rest)? else {
        return None;
    };
    Some(Command::Send {
        station: station(i)?,
        peer: station(j)?,
        register: u32::try_from(reg).ok()?,
    })
}

fn recv(rest: &[u8]) -> Option<Command>
    ensures { result ≡ of_two Command.Recv (numbers_of rest.now) }
{
    let Numbers::Two(i, j) = read(rest)? else {
        return None;
    };
    Some(Command::Recv {
        station: station(i)?,
        peer: station(j)?,
    })
}

fn start(rest: &[u8]) -> Option<Command>
    ensures { result ≡ of_one Command.Start (numbers_of rest.now) }
{
    let Numbers::One(i) = read(rest)? else {
        return None;
    };
    Some(Command::Start {
        station: station(i)?,
    })
}

// The command that a line says, if it says one.
pub fn parse(line: &[u8]) -> Option<Command>
    ensures value { result ≡ parse_of line.now }
    ensures means { Means line.now result }
{
    if let Some(rest) = line.strip_prefix(b"net ") {
        return net(rest);
    }
    if let Some(rest) = line.strip_prefix(b"allow ") {
        return allow(rest);
    }
    if let Some(rest) = line.strip_prefix(b"link ") {
        return link(rest);
    }
    if let Some(rest) = line.strip_prefix(b"enter ") {
        return enter(rest);
    }
    if let Some(rest) = line.strip_prefix(b"send ") {
        return send(rest);
    }
    if let Some(rest) = line.strip_prefix(b"recv ") {
        return recv(rest);
    }
    if let Some(rest) = line.strip_prefix(b"start ") {
        return start(rest);
    }
    None
}
