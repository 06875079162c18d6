//! The source of the running program: standard input.
ghost use Rattle.std.specs.Prelude.{◌≡◌, []};

use crate::world::count_fault;
use crate::{Failed, Source};
use std::io::Read;
use std::marker::PhantomData;

/// Standard input. It tells no bytes and counts each failure.
#[derive(Drop)]
pub struct StdinSource<'a, R: Input> {
    reader: R::Reader,
    rt: PhantomData<&'a R>,
    faults: u64,
}

impl<'a, R: Input> StdinSource<'a, R> {
    /// A source that reads standard input.
    pub fn new(rt: &'a R) -> StdinSource<'a, R>
        ensures { result.faults ≡ 0 }
    {
        StdinSource {
            reader: rt.reader(),
            rt: PhantomData,
            faults: 0,
        }
    }
}

impl<R: Input> Source for StdinSource<'_, R> {
    ghost tells = { ⊥ };

    ghost left = { λ source. [] };

    ghost faults = { λ source. source.faults };

    fn next(&mut self, into: &mut [u8]) -> Result<usize, Failed> {
        match self.reader.read(into) {
            Ok(n) => Ok(n),
            Err(_) => {
                self.faults = count_fault(self.faults);
                Err(Failed)
            }
        }
    }
}
