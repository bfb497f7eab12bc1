//! How the standard input is read, and what a person is told who is to type it.

use std::io::IsTerminal;

/// What one read asks for, and what is written at once, in bytes.
pub const BUFFER_BYTES: usize = 65_536;

/// Says what a command waits for, where a person is to type it.
pub fn tell_wait(rt: &HostRuntime, command: &str, wanted: &str) {
    if rt.stdin().is_terminal() {
        let _ = eprintln!(rt;
            "ocpi_nodes: waiting for lines of JSON on standard input: {wanted}. `ocpi_nodes help {command}` says more"
        );
    }
}

/// What a command waits for that takes events, where its setup may be read from a file.
pub fn wanted_behind(setup: Option<&str>) -> &'static str {
    match setup {
        None => "the setup, then events",
        Some(_) => "events",
    }
}
