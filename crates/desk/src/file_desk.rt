// Real files.
ghost use Rattle.std.specs.Option.{option_and_then};
ghost use Rattle.std.specs.Prelude.{◌≡◌, None, is_some, false};
ghost use Rattle.desk.specs.Served.{nothing};

use crate::{Desk, Failed, Served};
use std::fs;
use std::io::{ErrorKind, Read};
use std::rt::Files;

/// The files of the system. What they hold is unknown. What is left of the begun file is known if the file reports it, and a real
/// file doesn't.
#[derive(Drop)]
pub struct FileDesk<'a, R: Files> {
    rt: &'a R,
    file: Option<R::File>,
    faults: u64,
    served: Served,
}

impl<'a, R: Files> FileDesk<'a, R> {
    /// Creates a desk at which no file is begun yet.
    pub fn new(rt: &'a R) -> FileDesk<'a, R>
        ensures begun { ⟦<FileDesk<'a, R> as Desk>⟧.begun result ≡ false }
        ensures faults { ⟦<FileDesk<'a, R> as Desk>⟧.faults result ≡ 0 }
        ensures served { ⟦<FileDesk<'a, R> as Desk>⟧.served result ≡ nothing }
    {
        FileDesk {
            rt,
            file: None,
            faults: 0,
            served: Served::new(),
        }
    }
}

impl<'a, R: Files> Desk for FileDesk<'a, R> {
    ghost held = { λ d. None };

    ghost left = { λ d. option_and_then R.File.remaining d.file };

    ghost begun = { λ d. is_some d.file };

    ghost faults = { λ d. d.faults };

    ghost served = { λ d. d.served };

    /// If the system says that there is no such file, it answers false. Any other error is a fault.
    fn begin(&mut self, name: &str) -> Result<bool, Failed> {
        self.file = None;
        self.served.begin();
        match fs::open(self.rt, name) {
            Ok(file) => {
                self.file = Some(file);
                Ok(true)
            }
            Err(e) if e.kind() == ErrorKind::NotFound => {
                self.served.miss();
                Ok(false)
            }
            Err(_) => {
                self.faults = self.faults.saturating_add(1);
                Err(Failed)
            }
        }
    }

    fn read(&mut self, into: &mut [u8]) -> Result<usize, Failed> {
        let Some(file) = &mut self.file else {
            unreachable!()
        };
        match file.read(into) {
            Ok(count) => {
                self.served.give(count);
                Ok(count)
            }
            Err(_) => {
                self.file = None;
                self.faults = self.faults.saturating_add(1);
                Err(Failed)
            }
        }
    }
}
