//! The program. It runs the top call on the words of the command line, real files and the standard streams.
#![tactic(auto)]

use cli_base::{Refusal, deliver};
use desk::{FileDesk, NoGate, StreamSink};
use raire_cli::run;
use std::io::ErrorKind;
use std::process::ExitCode;
use std::rt::Env;
use std::{env, io};

// The status if the system doesn't give the words, or if one of them isn't UTF-8.
const NO_WORDS: u8 = 13;

/// Returns the words of the command line without the program's name.
fn collect_words<R: Env + AllocGlobal>(rt: &R) -> io::Result<Vec<String>> {
    let mut words = Vec::new(rt.alloc());
    for word in env::args(rt)?.skip(1) {
        words.push(word)?;
    }
    Ok(words)
}

fn main(rt: HostRuntime) -> ExitCode {
    let (stdout, stderr) = (rt.stdout(), rt.stderr());
    let mut out = StreamSink::new(io::writer(&stdout));
    let mut err = StreamSink::new(io::writer(&stderr));
    let words = match collect_words(&rt) {
        Ok(words) => words,
        Err(e) if e.kind() == ErrorKind::OutOfMemory => {
            return ExitCode::from(deliver(&Err(Refusal::Memory), &mut out, &mut err));
        }
        Err(_) => return ExitCode::from(NO_WORDS),
    };
    let mut desk = FileDesk::new(&rt);
    ExitCode::from(run(&rt, &words, &mut desk, &mut out, &mut err, &NoGate))
}
