ghost use Rattle.std.specs.Prelude.{◌≡◌, ℕ, ◌^◌, ◌<◌, None};

use crate::shelf::{Failed, Shelf};
use std::fs;
use std::io::Read;
use std::marker::Model;
use std::rt::Files;

/// The files of the system, by their paths. Before any text was begun nothing is left.
#[derive(Drop)]
pub struct FileShelf<R: Files + Drop> {
    rt: R,
    file: Option<R::File>,
    faults: u64,
}

// Clauses see how many of its calls failed.
impl<R: Files + Drop> Model for FileShelf<R> {
    ghost Value = { ℕ };

    ghost view = { λ s. s.faults };

    ghost invariant = { λ s. s.faults < 2 ^ 64 };
}

impl<R: Files + Drop> FileShelf<R> {
    /// A shelf of the files that `rt` opens.
    pub fn new(rt: R) -> FileShelf<R>
        ensures { result ≡ 0 }
    {
        FileShelf {
            rt,
            file: None,
            faults: 0,
        }
    }
}

impl<R: Files + Drop> Shelf for FileShelf<R> {
    ghost texts = { λ _. None };

    ghost left = { λ _. None };

    ghost faults = { λ count. count };

    fn begin(&mut self, name: &str) -> Result<(), Failed> {
        match fs::open(&self.rt, name) {
            Ok(file) => {
                self.file = Some(file);
                Ok(())
            }
            Err(_) => Err(Failed::count(&mut self.faults)),
        }
    }

    fn read(&mut self, buf: &mut [u8]) -> Result<usize, Failed> {
        match &mut self.file {
            Some(file) => match file.read(buf) {
                Ok(count) => Ok(count),
                Err(_) => Err(Failed::count(&mut self.faults)),
            },
            None => Ok(0),
        }
    }
}
