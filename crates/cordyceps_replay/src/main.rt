//! Runs scripts of commands over lists, stacks and cores: reads lines, and writes the replies to them.
#![tactic(auto)]

pub use replay_driver::fault::{Failed, Fault};
pub use replay_driver::memory::FromSlice;
pub use replay_driver::script::{run_bytes, run_script};
pub use replay_driver::session::Session;
pub use replay_driver::sink::{Sink, ToWrite};
pub use replay_driver::source::{FromRead, Source};
pub use replay_lines::reason::Reason;
use replay_sessions::modes::compare_tens;
pub use replay_sessions::modes::{Choice, Mode, USAGE, choose, run, run_with_reason};
pub use replay_sharing::share::{Gate, OpenGate, run_share, share};
use std::io::ErrorKind;
use std::process::ExitCode;
use std::{env, io};

/// The words after the program's name.
fn arguments(rt: &HostRuntime) -> io::Result<Vec<String>> {
    let mut words = Vec::new(rt.alloc());
    for word in env::args(rt)?.skip(1) {
        words.push(word)?;
    }
    Ok(words)
}

/// The environment variable that asks for reasons: if it is `1`, the line of a bad line also says why that is bad.
const REASONS: &str = "CORDYCEPS_REPLAY_REASONS";

/// Returns `true` if reasons are asked for. A variable that cannot be read asks for none.
fn tells_reasons(rt: &HostRuntime) -> bool {
    match env::var(rt, REASONS) {
        Ok(value) => value.as_str() == "1",
        Err(_) => false,
    }
}

/// Writes a fault's text on standard error, and why a line is bad if that is asked for. The fault's status is the
/// program's.
fn report(rt: &HostRuntime, fault: Fault, why: Option<Reason>) -> ExitCode {
    let _ = match why {
        Some(why) if tells_reasons(rt) => eprintln!(rt; "{fault}: {why}"),
        _ => rt.eprintln(fault),
    };
    ExitCode::from(fault.status())
}

/// How a run ends the program.
fn exit_code(rt: &HostRuntime, end: Result<(), Fault>, why: Option<Reason>) -> ExitCode {
    match end {
        Ok(()) => ExitCode::SUCCESS,
        Err(fault) => report(rt, fault, why),
    }
}

fn main(rt: HostRuntime) -> ExitCode {
    let choice = match arguments(&rt) {
        Ok(words) => choose(&words),
        // an argument that is not text names no mode
        Err(error) if error.kind() == ErrorKind::InvalidData => None,
        Err(_) => return report(&rt, Fault::Memory, None),
    };
    let mut output = ToWrite::new(io::writer(&rt));
    let mode = match choice {
        Some(Choice::List) => Mode::List,
        Some(Choice::Stack) => Mode::Stack,
        Some(Choice::Sorted) => Mode::Sorted(compare_tens),
        Some(Choice::Transfer) => Mode::Transfer,
        Some(Choice::Queue) => Mode::Queue,
        Some(Choice::Share) => return exit_code(&rt, run_share(&rt, rt.alloc(), &mut output), None),
        None => {
            let _ = rt.eprintln(USAGE);
            return ExitCode::from(1);
        }
    };
    let mut input = FromRead::new(rt.reader());
    let mut why = None;
    let end = run_with_reason(rt.alloc(), mode, &mut input, &mut output, &mut why);
    exit_code(&rt, end, why)
}
