//! Plans done on a store, and its pages compared.
ghost use Rattle.std.specs.Prelude.{◌≡◌, ◌≤◌, ◌<◌, ◌+◌, false, true, length, OnOk};
ghost use Rattle.isp_page.specs.State.{most_changed, none_begun};
ghost use Rattle.isp_store.specs.State.{mini};

use crate::plain::page_after;
use crate::plans::{Act, Plan, Run};
use isp_disk::World;
use isp_format::{PAGE_BYTES, Page, PageNo};
use isp_page::{Fault, Pages, StoreFault};
use isp_store::Store;
use std::alloc::Global;

/// How many frames the stores have.
const FRAMES: usize = 64;

/// The fan-out of the files.
pub(crate) const FANOUT: u32 = 4;

/// What acts are answered with that name no bytes of the file: no rule has this number.
const NOT_THERE: StoreFault = StoreFault::Damaged { page: 0, rule: 0 };

/// Changes a run in the mini-transaction that is begun.
fn change<P: Pages>(store: &mut P, run: Run) -> Result<(), StoreFault>
    requires usable { P.usable store.old ≡ true }
    requires begun { (P.mini store.old).is_begun ≡ true }
    requires room { length (P.mini store.old).changed < most_changed }
    ensures usable { OnOk result (P.usable store.new ≡ true) }
    ensures begun { OnOk result ((P.mini store.new).is_begun ≡ true) }
    ensures count { OnOk result (length (P.mini store.new).changed ≤ length (P.mini store.old).changed + 1) }
{
    let bytes = [run.byte; PAGE_BYTES];
    let len = run.len as usize;
    if run.page >= store.pages() || len == 0 || run.at as usize + len > PAGE_BYTES {
        return Err(NOT_THERE);
    }
    store.change(PageNo(run.page), run.at, &bytes[..len])
}

/// Changes these runs in one mini-transaction.
fn put<P: Pages>(store: &mut P, runs: &[Run]) -> Result<(), StoreFault>
    requires usable { P.usable store.old ≡ true }
    requires none { (P.mini store.old).is_begun ≡ false }
    ensures usable { OnOk result (P.usable store.new ≡ true) }
    ensures none { OnOk result (P.mini store.new ≡ none_begun) }
{
    if runs.len() > 3 {
        return Err(NOT_THERE);
    }
    store.begin();
    for run in runs {
        change(store, *run)?;
    }
    store.finish()
}

/// Reads a page of the store.
fn read<P: Pages>(store: &mut P, number: u32, into: &mut Page) -> Result<(), StoreFault>
    requires { P.usable store.old ≡ true }
    ensures usable { OnOk result (P.usable store.new ≡ true) }
    ensures mini { OnOk result (P.mini store.new ≡ P.mini store.old) }
{
    if number >= store.pages() {
        return Err(NOT_THERE);
    }
    store.read(PageNo(number), into)
}

/// Reads a page of the store, whatever it holds.
fn look_at<P: Pages>(store: &mut P, number: u32) -> Result<(), StoreFault>
    requires { P.usable store.old ≡ true }
    ensures usable { OnOk result (P.usable store.new ≡ true) }
    ensures mini { OnOk result (P.mini store.new ≡ P.mini store.old) }
{
    let mut page = Page {
        bytes: [0; PAGE_BYTES],
    };
    read(store, number, &mut page)
}

/// Writes some dirty pages in place.
fn clean<P: Pages>(store: &mut P) -> Result<(), StoreFault>
    requires usable { P.usable store.old ≡ true }
    requires none { (P.mini store.old).is_begun ≡ false }
    ensures usable { OnOk result (P.usable store.new ≡ true) }
    ensures mini { OnOk result (P.mini store.new ≡ P.mini store.old) }
{
    let _count = store.clean_some()?;
    Ok(())
}

/// Does this act.
fn do_one<W: World>(store: &mut Store<W>, act: Act) -> Result<(), StoreFault>
    requires usable { store.old.is_usable ≡ true }
    requires none { (mini W.World store.old).is_begun ≡ false }
    ensures usable { OnOk result (store.new.is_usable ≡ true) }
    ensures none { OnOk result ((mini W.World store.new).is_begun ≡ false) }
{
    match act {
        Act::Put(run) => put(store, &[run]),
        Act::PutThree(first, second, third) => put(store, &[first, second, third]),
        Act::PutNone => put(store, &[]),
        Act::Read(number) => look_at(store, number),
        Act::Print => store.print(b"."),
        Act::Flush => store.flush(),
        Act::CleanSome => clean(store),
        Act::Checkpoint => store.checkpoint(),
    }
}

/// Does these acts, until one fails.
fn do_all<W: World>(store: &mut Store<W>, plan: Plan) -> Result<bool, StoreFault>
    requires usable { store.old.is_usable ≡ true }
    requires none { (mini W.World store.old).is_begun ≡ false }
{
    for at in 0..plan.count() {
        do_one(store, plan.act(at))?;
    }
    Ok(true)
}

/// Whether the store has the pages of a file that was empty, after the first so many mini-transactions of a plan.
fn has_pages<P: Pages>(store: &mut P, plan: Plan, done: u32) -> Result<bool, StoreFault>
    requires { P.usable store.old ≡ true }
    ensures { OnOk result (P.usable store.new ≡ true) }
{
    let mut page = Page {
        bytes: [0; PAGE_BYTES],
    };
    for number in 0..store.pages() {
        read(store, number, &mut page)?;
        if page != page_after(number, plan, done) {
            return Ok(false);
        }
    }
    Ok(true)
}

/// The pages of a file that was empty, after the first so many mini-transactions of a plan, or, if that may be, one more.
#[derive(Clone, Copy)]
pub(crate) struct Wanted {
    pub pages: u32,
    pub plan: Plan,
    pub done: u32,
    pub or_one_more: bool,
}

/// Whether the store has them.
fn is_as<P: Pages>(store: &mut P, wanted: Wanted) -> Result<bool, StoreFault>
    requires { P.usable store.old ≡ true }
{
    if store.pages() != wanted.pages || store.fanout() != FANOUT {
        return Ok(false);
    }
    let is = has_pages(store, wanted.plan, wanted.done)?;
    if is || !wanted.or_one_more {
        return Ok(is);
    }
    has_pages(store, wanted.plan, wanted.done.saturating_add(1))
}

/// What is done with a store that was started: these acts, until one fails; or its pages are compared with others.
#[derive(Clone, Copy)]
pub(crate) enum Task {
    Do(Plan),
    Compare(Wanted),
}

/// Starts a store of 64 frames on a world and does this with it. The world after it.
pub(crate) fn started<W: World>(alloc: Global, world: W, task: Task) -> (Result<bool, Fault>, W) {
    match Store::start(alloc, world, FRAMES) {
        Ok(mut store) => {
            let done = match task {
                Task::Do(plan) => do_all(&mut store, plan),
                Task::Compare(wanted) => is_as(&mut store, wanted),
            };
            (done.map_err(Fault::Store), store.into_world())
        }
        Err((fault, world)) => (Err(fault), world),
    }
}
