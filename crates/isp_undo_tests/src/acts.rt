//! Calls on slots as plain data.
ghost use Rattle.std.specs.Prelude.{◌≡◌, ◌<◌, ◌≤◌, true, OnOk};
ghost use Rattle.isp_format.specs.Undo.{undo_slots};
ghost use Rattle.isp_page.specs.State.{none_begun};
ghost use Rattle.isp_undo_pages.specs.Entries.{IsBuf};

use isp_page::{Pages, StoreFault};
use isp_space::take_page;
use isp_undo::{UndoBuf, finish, pop, push};

/// An image of a key whose bytes are so many and each its length, in table 1; or a call that takes the newest one off; or one that
/// leaves the slot without a chain.
#[derive(Clone, Copy)]
pub(crate) enum Act {
    Push(u32, i64, u16),
    Pop(u32),
    Finish(u32),
}

/// What an act is answered with that names a slot or a length that isn't there: no rule has this number.
const NONE_SUCH: StoreFault = StoreFault::Damaged { page: 0, rule: 0 };

// The kind of an image with so many bytes.
fn kind_of(len: u16) -> u8
    ensures { result ≤ 1 }
{
    if len == 0 { 0 } else { 1 }
}

/// The image of an act: without bytes of nothing, else of a row.
pub(crate) fn image(key: i64, len: u16) -> UndoBuf
    requires { len ≤ 1000 }
    ensures { IsBuf result }
{
    UndoBuf {
        table: 1,
        key,
        kind: kind_of(len),
        len,
        bytes: [(len % 256) as u8; 1_000],
    }
}

/// Pushes an image in a mini-transaction of its own.
pub(crate) fn push_one<P: Pages>(pages: &mut P, slot: u32, old: &UndoBuf) -> Result<(), StoreFault>
    requires usable { P.usable pages.old ≡ true }
    requires none { P.mini pages.old ≡ none_begun }
    requires slot { slot < undo_slots }
    requires buf { IsBuf old.now }
    ensures usable { OnOk result (P.usable pages.new ≡ true) }
    ensures none { OnOk result (P.mini pages.new ≡ none_begun) }
    ensures shape { OnOk result (P.shape pages.new ≡ P.shape pages.old) }
{
    pages.begin();
    push(pages, slot, old)?;
    pages.finish()?;
    Ok(())
}

// Takes the newest image off in one.
fn pop_one<P: Pages>(pages: &mut P, slot: u32) -> Result<(), StoreFault>
    requires usable { P.usable pages.old ≡ true }
    requires none { P.mini pages.old ≡ none_begun }
    requires slot { slot < undo_slots }
    ensures usable { OnOk result (P.usable pages.new ≡ true) }
    ensures none { OnOk result (P.mini pages.new ≡ none_begun) }
    ensures shape { OnOk result (P.shape pages.new ≡ P.shape pages.old) }
{
    pages.begin();
    pop(pages, slot)?;
    pages.finish()?;
    Ok(())
}

// Gives all pages of a slot back in one.
fn finish_one<P: Pages>(pages: &mut P, slot: u32) -> Result<(), StoreFault>
    requires usable { P.usable pages.old ≡ true }
    requires none { P.mini pages.old ≡ none_begun }
    requires slot { slot < undo_slots }
    ensures usable { OnOk result (P.usable pages.new ≡ true) }
    ensures none { OnOk result (P.mini pages.new ≡ none_begun) }
    ensures shape { OnOk result (P.shape pages.new ≡ P.shape pages.old) }
{
    pages.begin();
    finish(pages, slot)?;
    pages.finish()?;
    Ok(())
}

// Pushes the image of an act.
fn push_act<P: Pages>(pages: &mut P, slot: u32, key: i64, len: u16) -> Result<(), StoreFault>
    requires usable { P.usable pages.old ≡ true }
    requires none { P.mini pages.old ≡ none_begun }
    requires slot { slot < undo_slots }
    ensures usable { OnOk result (P.usable pages.new ≡ true) }
    ensures none { OnOk result (P.mini pages.new ≡ none_begun) }
    ensures shape { OnOk result (P.shape pages.new ≡ P.shape pages.old) }
{
    if len > 1_000 {
        return Err(NONE_SUCH);
    }
    push_one(pages, slot, &image(key, len))?;
    Ok(())
}

// The slot of an act.
fn slot_of(act: Act) -> u32 {
    match act {
        Act::Push(slot, _, _) => slot,
        Act::Pop(slot) => slot,
        Act::Finish(slot) => slot,
    }
}

/// Does the act.
pub(crate) fn do_one<P: Pages>(pages: &mut P, act: Act) -> Result<(), StoreFault>
    requires usable { P.usable pages.old ≡ true }
    requires none { P.mini pages.old ≡ none_begun }
    ensures usable { OnOk result (P.usable pages.new ≡ true) }
    ensures none { OnOk result (P.mini pages.new ≡ none_begun) }
    ensures shape { OnOk result (P.shape pages.new ≡ P.shape pages.old) }
{
    let slot = slot_of(act);
    if slot >= 32 {
        return Err(NONE_SUCH);
    }
    match act {
        Act::Push(_, key, len) => push_act(pages, slot, key, len)?,
        Act::Pop(_) => pop_one(pages, slot)?,
        Act::Finish(_) => finish_one(pages, slot)?,
    }
    Ok(())
}

/// Does these acts, one after another.
pub(crate) fn do_all<P: Pages>(pages: &mut P, acts: &[Act]) -> Result<(), StoreFault>
    requires usable { P.usable pages.old ≡ true }
    requires none { P.mini pages.old ≡ none_begun }
    ensures usable { OnOk result (P.usable pages.new ≡ true) }
    ensures none { OnOk result (P.mini pages.new ≡ none_begun) }
    ensures shape { OnOk result (P.shape pages.new ≡ P.shape pages.old) }
{
    for act in acts {
        do_one(pages, *act)?;
    }
    Ok(())
}

/// Takes the page of the one table, 16.
pub(crate) fn take_one<P: Pages>(pages: &mut P) -> Result<(), StoreFault>
    requires usable { P.usable pages.old ≡ true }
    requires none { P.mini pages.old ≡ none_begun }
    ensures usable { OnOk result (P.usable pages.new ≡ true) }
    ensures none { OnOk result (P.mini pages.new ≡ none_begun) }
    ensures shape { OnOk result (P.shape pages.new ≡ P.shape pages.old) }
{
    pages.begin();
    let _page = take_page(pages)?;
    pages.finish()?;
    Ok(())
}
