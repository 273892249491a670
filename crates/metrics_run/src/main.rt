//! The program: `metrics_run script` reads script lines from standard input, counts, and prints scrapes; `metrics_run serve PORT
//! COUNT` answers so many connections on 127.0.0.1, with its own metrics.
//!
//! Exit status 0 at the end; 1 after a refused line, or without memory for the arguments or a server; 2 for other arguments; 3
//! where standard input, standard output or a socket failed, or a server's thread could not be started.
#![tactic(auto)]

mod arguments;

use arguments::{Command, read_serve};
use metric_names::NoMemory;
use metrics_program::{ScriptEnd, ServeEnd, refuse_all, run_script, serve_on};
use std::alloc::Global;
use std::io::{ErrorKind, Write};
use std::net::{Ipv4Addr, Net, TcpListener, TcpStream};
use std::process::ExitCode;
use std::rt::Env;
use std::sync::Wait;
use std::thread::Threads;
use std::{env, io};

const USAGE: &str = "usage: metrics_run script | metrics_run serve PORT COUNT";

/// What the words ask for, if they do: the program's name, and then those of a script or of a server.
fn read_asked(mut words: env::Args) -> Option<Command> {
    let _program = words.next();
    let asked = match words.next()?.as_str() {
        "script" => Command::Script,
        "serve" => {
            let (port, count) = (words.next()?, words.next()?);
            let (port, count) = read_serve(port.as_str(), count.as_str())?;
            Command::Serve { port, count }
        }
        _ => return None,
    };
    if words.next().is_some() {
        return None;
    }
    Some(asked)
}

/// What the arguments ask for, if they do. An argument that is no text asks for nothing.
///
/// Refusal 6 [`NoMemory`], and no other.
fn asked(rt: &(impl Env + AllocGlobal)) -> Result<Option<Command>, NoMemory> {
    match env::args(rt) {
        Ok(words) => Ok(read_asked(words)),
        Err(fault) if fault.kind() == ErrorKind::OutOfMemory => Err(NoMemory),
        Err(_) => Ok(None),
    }
}

/// Listens at a port of 127.0.0.1, and serves.
fn serve<T, W: Write>(rt: &T, alloc: Global, port: u16, count: u64, writer: &mut W) -> ServeEnd
where
    T: Net<Listener = TcpListener, Stream = TcpStream> + Threads + Wait + Sync,
{
    match TcpListener::bind(rt, (Ipv4Addr::LOCALHOST, port)) {
        Ok(listener) => serve_on(rt, alloc, listener, count, writer),
        Err(_) => ServeEnd::Broken,
    }
}

fn main(rt: HostRuntime) -> ExitCode {
    let (is_broken, status) = match asked(&rt) {
        Ok(Some(Command::Script)) => {
            let end = run_script(&rt, rt.alloc(), rt.reader(), io::writer(&rt));
            (end == ScriptEnd::Broken, end.status())
        }
        Ok(Some(Command::Serve { port, count })) => {
            let end = serve(&rt, rt.alloc(), port, count, &mut io::writer(&rt));
            (end == ServeEnd::Broken, end.status())
        }
        Ok(None) => {
            let _ = eprintln!(rt; "{USAGE}");
            return ExitCode::from(2);
        }
        Err(NoMemory) => {
            let end = refuse_all(&mut io::writer(&rt));
            (end == ScriptEnd::Broken, end.status())
        }
    };
    if is_broken {
        let _ = eprintln!(rt; "fault");
    }
    ExitCode::from(status)
}
