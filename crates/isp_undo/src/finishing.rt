//! A slot without its chain.
ghost use Rattle.std.specs.Prelude.{◌≡◌, List, OnOk, IfErr};
ghost use Rattle.isp_format.specs.Ranges.{page_of};
ghost use Rattle.isp_format.specs.Undo.{Slot as Ends, undo_slots};
ghost use Rattle.isp_page.specs.Steps.{IsNoDamage};
ghost use Rattle.isp_space.specs.Changes.{MayChange};
ghost use Rattle.isp_space.specs.Spaces.{Space};
ghost use Rattle.std.specs.Prelude.{◌<◌};
ghost use Rattle.isp_undo_walks.specs.Slots.{IsInside};
ghost use Rattle.isp_undo.specs.Calls.{ChangesChain, Finishes, HasStackIn, most_pages};
ghost use Rattle.isp_undo_walks.specs.Chains.{Chain, ends_of};
ghost use Rattle.isp_undo_pages.specs.Directory.{ends_in};

use isp_format::{Page, PageNo};
use isp_page::{Pages, StoreFault};
use isp_space::give_chain;
use isp_undo_pages::Slot;
use isp_undo_walks::{count_pages, read_slot, write_slot};

// What the directory says of a slot without a chain.
const NONE: Slot = Slot {
    first: PageNo(0),
    last: PageNo(0),
};

// Gives all pages of a chain with these ends back.
fn give_all<P: Pages>(
    pages: &mut P,
    directory: &Page,
    slot: u32,
    ends: Slot,
) -> Result<(), StoreFault>
    requires can { MayChange P.Pages most_pages pages.old }
    requires slot { slot < undo_slots }
    requires ends { IsInside (P.shape pages.old).pages ends }
    ensures changes { ChangesChain P.Pages pages.old pages.new result }
    ensures finished { P.tells → directory.now.bytes ≡ page_of (P.contents pages.old) 1
        → (slots : List Ends) (chain : Chain) (s : Space)
        → HasStackIn P.Pages pages.old slots slot chain s → ends_in ends ≡ ends_of chain
        → OnOk result (Finishes P.Pages pages.old pages.new slots slot chain s) }
    ensures sound { P.tells → (slots : List Ends) (chain : Chain) (s : Space)
        → HasStackIn P.Pages pages.old slots slot chain s → ends_in ends ≡ ends_of chain
        → IfErr result IsNoDamage }
{
    let count = count_pages(pages, ends)?;
    give_chain(pages, ends.first, ends.last, count)?;
    write_slot(pages, directory, slot, NONE)?;
    Ok(())
}

/// Gives all pages of a slot back, which has no chain then. The first of them is the next one to be taken.
///
/// # Errors
///
/// Disk; or Damaged: with page 1 or an undo page and rule 10, where these don't say a chain; with an undo page and rule 13, where
/// it is longer than the file; with page 0 and rule 4 or 5, where that says no space.
pub fn finish<P: Pages>(pages: &mut P, slot: u32) -> Result<(), StoreFault>
    requires can { MayChange P.Pages most_pages pages.old }
    requires slot { slot < undo_slots }
    ensures changes { ChangesChain P.Pages pages.old pages.new result }
    ensures finished { P.tells → (slots : List Ends) (chain : Chain) (s : Space)
        → HasStackIn P.Pages pages.old slots slot chain s
        → OnOk result (Finishes P.Pages pages.old pages.new slots slot chain s) }
    ensures sound { P.tells → (slots : List Ends) (chain : Chain) (s : Space)
        → HasStackIn P.Pages pages.old slots slot chain s → IfErr result IsNoDamage }
{
    let mut directory = Page::zeros();
    let found = read_slot(pages, slot, &mut directory)?;
    match found {
        Some(ends) => {
            give_all(pages, &directory, slot, ends)?;
            Ok(())
        }
        None => Ok(()),
    }
}
