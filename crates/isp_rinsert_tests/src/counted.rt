//! Pages in memory that note which of them are read and changed.
ghost use Rattle.std.specs.Prelude.{◌≡◌, [], true};

use isp_format::{Page, PageNo};
use isp_page::{MemPages, Pages, StoreFault};

/// Pages in memory, and which of the first 32 were read and changed. They tell no contents.
#[derive(Drop)]
pub(crate) struct CountedPages {
    pub pages: MemPages,
    pub read: [bool; 32],
    pub changed: [bool; 32],
}

// Notes the page.
fn note(noted: &mut [bool; 32], p: PageNo) {
    if p.0 < 32 {
        noted[p.0 as usize] = true;
    }
}

impl Pages for CountedPages {
    ghost use Rattle.std.proofs.Common.{rules};

    ghost tells = { ⊥ };

    ghost contents = { λ c place. 0 };

    ghost printed = { λ c. [] };

    ghost may_leave = { λ c left. ⊥ };

    ghost clock = { λ c. 0 };

    ghost left_since = { λ c t left printed. ⊥ };

    ghost shape = { λ c. c.pages.shape };

    ghost mini = { λ c. c.pages.mini };

    ghost dirty = { λ c. 0 };

    ghost disk_faults = { λ c. 0 };

    ghost print_faults = { λ c. c.pages.print_faults };

    ghost usable = { λ c. true };

    fn pages(&self) -> u32 {
        self.pages.pages()
    }

    fn fanout(&self) -> u32 {
        self.pages.fanout()
    }

    fn begin(&mut self) {
        self.pages.begin();
    }

    fn read(&mut self, p: PageNo, into: &mut Page) -> Result<(), StoreFault> {
        note(&mut self.read, p);
        self.pages.read(p, into)
    }

    fn change(&mut self, p: PageNo, at: u16, bytes: &[u8]) -> Result<(), StoreFault> {
        note(&mut self.changed, p);
        self.pages.change(p, at, bytes)
    }

    fn finish(&mut self) -> Result<(), StoreFault> {
        self.pages.finish()
    }

    fn flush(&mut self) -> Result<(), StoreFault> {
        self.pages.flush()
    }

    fn clean_some(&mut self) -> Result<u32, StoreFault> {
        self.pages.clean_some()
    }

    fn print(&mut self, line: &[u8]) -> Result<(), StoreFault> {
        self.pages.print(line)
    }
}
