//! The program: hands the process's words, the disk's files, its output and TCP to the commands,
//! and ends with the number of their status.
#![tactic(auto)]

use osi_base::{DiskFiles, StdSink, TcpLine};
use osi_commands::{Arguments, run_process};
use std::alloc::Global;
use std::env;
use std::env::Env;
use std::io::ErrorKind;
use std::process::ExitCode;

/// All arguments of this process, its name first; or why they are not known: memory was refused,
/// or one of them is no UTF-8.
fn read_arguments<R: Env + Alloc<A = Global>>(rt: &R) -> Arguments {
    match env::args(rt) {
        Ok(arguments) => match arguments.collect(rt.alloc()) {
            Ok(given) => Arguments::Given(given),
            Err(_) => Arguments::Unread,
        },
        Err(error) if error.kind() == ErrorKind::OutOfMemory => Arguments::Unread,
        Err(_) => Arguments::NotText,
    }
}

fn main(rt: HostRuntime) -> ExitCode {
    let alloc = rt.alloc();
    let mut files = DiskFiles { rt: &rt, faults: 0 };
    let mut out = StdSink { rt: &rt, faults: 0 };
    let mut line = TcpLine::new(&rt);
    let code = run_process(alloc, read_arguments(&rt), &mut files, &mut out, &mut line);
    ExitCode::from(code)
}
