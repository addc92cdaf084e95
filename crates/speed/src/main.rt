// Measures the cost of deliveries and pictures on a page of 24 lines and 80 columns.
//
// `speed deliver KIND FILE TIMES` delivers the bytes of a file as often as asked; `speed picture KIND FILE TIMES` delivers them once
// and draws as many pictures. It is run under an instruction counter: what two passes cost, less what one costs, is a pass. At the
// end it prints a hash of the characters shown, so that two programs that should show the same can be compared.

#![tactic(auto)]

mod passes;
mod words;

use std::process::ExitCode;
use words::Failure;

fn main(rt: HostRuntime) -> ExitCode {
    match run(&rt) {
        Ok(()) => ExitCode::SUCCESS,
        Err(failure) => {
            let _ = eprintln!(rt; "{failure}");
            ExitCode::FAILURE
        }
    }
}

fn run(rt: &HostRuntime) -> Result<(), Failure> {
    let call = words::called(rt)?;
    passes::run(rt, &call)
}
