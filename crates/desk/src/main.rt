//! The program: the top call over the files and the standard output of the system.
#![tactic(auto)]

use arbac_desk::arbac_desk;
use desk_ports::{FileShelf, OutSink};
use std::process::ExitCode;
use std::{env, io};

/// The exit status where there is no memory to take up the words or to make the objects.
const NO_MEMORY: u8 = 7;

fn main(rt: HostRuntime) -> ExitCode {
    let alloc = rt.alloc();
    let mut words = Vec::new(alloc);
    match env::args(&rt) {
        Ok(args) => {
            for word in args.skip(1) {
                if words.push(word).is_err() {
                    return ExitCode::from(NO_MEMORY);
                }
            }
        }
        // A word that is no UTF-8 is of no written form, and neither is no word at all.
        Err(error) if error.kind() == io::ErrorKind::InvalidData => {}
        Err(_) => return ExitCode::from(NO_MEMORY),
    }
    let Ok(files) = rt.clone() else {
        return ExitCode::from(NO_MEMORY);
    };
    let mut shelf = FileShelf::new(files, alloc);
    let mut out = OutSink::new(io::writer(&rt));
    ExitCode::from(arbac_desk(alloc, &words, &mut shelf, &mut out))
}
