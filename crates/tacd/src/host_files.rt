// The files of the system.
ghost use Rattle.std.specs.Prelude.{◌≡◌, None};

use std::fs::File;
use std::io::Read;
use std::rt;
use tac_io::{Failed, Files};

/// The files of the system. They count their faults; no clause says what they hold.
#[derive(Drop)]
pub(crate) struct HostFiles<'a, R> {
    rt: &'a R,
    file: Option<File>,
    faults: u64,
}

impl<'a, R: rt::Files<File = File>> HostFiles<'a, R> {
    /// No file is selected yet.
    pub(crate) fn new(rt: &'a R) -> HostFiles<'a, R>
        ensures selected { result.file ≡ None }
        ensures faults { result.faults ≡ 0 }
    {
        HostFiles {
            rt,
            file: None,
            faults: 0,
        }
    }
}

impl<'a, R: rt::Files<File = File>> Files for HostFiles<'a, R> {
    ghost use Rattle.std.specs.Prelude.{None, is_some};

    ghost state = { λ s. record { content = None; names = None; selected = is_some s.file; left = None; faults = s.faults } };

    fn select(&mut self, name: &str) -> Result<(), Failed> {
        match File::open(self.rt, name) {
            Ok(file) => {
                self.file = Some(file);
                Ok(())
            }
            Err(_) => {
                self.faults = self.faults.saturating_add(1);
                Err(Failed)
            }
        }
    }

    fn read(&mut self, into: &mut [u8]) -> Result<usize, Failed> {
        let file = self.file.as_mut().unwrap();
        match file.read(into) {
            Ok(count) => Ok(count),
            Err(_) => {
                self.faults = self.faults.saturating_add(1);
                Err(Failed)
            }
        }
    }

    fn faults(&self) -> u64 {
        self.faults
    }
}
