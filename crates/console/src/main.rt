// Shows what a panel is sent.
//
// With no argument it delivers a recorded list to a page, part by part, and shows the panel after each. `show` does so with the
// bytes of a file, on a panel of any kind and size; `items` tells how the bytes of a file are read;
// `panel` makes calls on a panel and shows the memory behind it. Each command has a module.

#![tactic(auto)]

mod cable;
mod call;
mod console;
mod consoles;
mod frame;
mod items;
mod kinds;
mod line;
mod memory;
mod names;
mod panel_calls;
mod panel_shown;
mod pieces;
mod recorded;
mod refused;
mod sgr;
mod show;
mod shown;
mod task;
mod transcripts;
mod words;

use call::{Call, Failure};
use std::process::ExitCode;

fn main(rt: HostRuntime) -> ExitCode {
    match run(&rt) {
        Ok(()) => ExitCode::SUCCESS,
        Err(failure) => {
            let _ = eprintln!(rt; "{failure}");
            ExitCode::FAILURE
        }
    }
}

fn run(rt: &HostRuntime) -> Result<(), Failure> {
    match words::called(rt)? {
        Call::Recorded => task::run(rt),
        Call::Items(path) => items::run(rt, path),
        Call::Show(show) => show::run(rt, &show),
        Call::Panel(kind, size) => panel_shown::run(rt, kind, size),
    }
}
