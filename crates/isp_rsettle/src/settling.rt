//! A plan is settled.
ghost use Rattle.std.specs.Prelude.{◌≡◌, ◌+◌, ◌*◌, ◌<◌, ◌≤◌, ◌++◌, ◌∷◌, [], ℕ, drop, length, map, reverse, vec_capacity};
ghost use Rattle.isp_forest.specs.Steps.{entry_for};
ghost use Rattle.isp_forest.specs.Tree.{least};
ghost use Rattle.isp_rplan.specs.Divisions.{known_after, needs, news_after, pages_needed};
ghost use Rattle.isp_rplan.specs.Plans.{known, moves_of};
ghost use Rattle.isp_rsettle.specs.Settling.{AreLow, AreSome, HasRoomFor, HaveSome, counter_after, nodes_of, number_limit, part_page, part_root, parts, raised, raised_root, root_needs, settled, settled_page, settled_root};

use crate::outcome::{Outcome, Parted, Raised, Room, Settled};
use isp_base::PageNo;
use isp_forest::{Entry, To};
use isp_rplan::{NodeHead, Planned, least};

/// How many pages a plan needs, which is given from the root down: one for each division, and one more where the root is raised.
pub fn pages_needed(steps: &[Planned]) -> usize
    requires { length steps.now ≤ 17 }
    ensures { result ≡ pages_needed (reverse steps.now) }
{
    let mut count = needed_by_root(steps);
    for step in steps {
        count += needed(step);
    }
    count
}

// How many pages the first step needs in addition, since it is the root's.
fn needed_by_root(steps: &[Planned]) -> usize
    ensures { result ≡ root_needs steps.now }
{
    match steps.first() {
        Some(root) => needed(root),
        None => 0,
    }
}

// How many pages a step needs.
fn needed(step: &Planned) -> usize
    ensures { result ≡ needs (moves_of step.now) }
{
    if step.moves.is_some() { 1 } else { 0 }
}

/// What becomes of a plan, which is given from the root down, once the new entry's number and its new pages are known: these in
/// their order from the leaf up, where the page of a raised root's content stands before its right page. The counter is the root's
/// sequence number.
pub fn settle(steps: Vec<Planned>, news: &[PageNo], counter: u64, to: To, room: Room) -> Outcome
    requires enough { pages_needed (reverse steps.items) ≤ length news.now }
    requires numbers { counter + length steps.items < number_limit }
    requires low { AreLow steps.items }
    requires some { HaveSome steps.items }
    requires room { HasRoomFor (length steps.items) room }
    ensures writes { nodes_of result.writes.items ≡ settled counter to (reverse steps.items) news.now }
    ensures raised { result.raised ≡ raised (reverse steps.items) news.now }
    ensures parted { result.parted.items ≡ parts (reverse steps.items) news.now }
{
    let Room {
        mut writes,
        mut parted,
        root,
    } = room;
    let mut steps = steps;
    let mut at = Cursor {
        counter,
        to,
        taken: 0,
    };
    'up: while let Some(step) = steps.pop() {
        if steps.is_empty() {
            let raised = settle_root(step, news, at, root, &mut writes, &mut parted);
            return Outcome {
                writes,
                raised,
                parted,
            };
        }
        at = settle_page(step, news, at, &mut writes, &mut parted);
    }
    Outcome {
        writes,
        raised: None,
        parted,
    }
}

// The tree's counter, where a new entry leads, and how many of the new pages are used, on the way up.
#[derive(Clone, Copy)]
struct Cursor {
    counter: u64,
    to: To,
    taken: usize,
}

// What comes of a page below the root.
fn settle_page(
    step: Planned,
    news: &[PageNo],
    at: Cursor,
    writes: &mut Vec<Settled>,
    parted: &mut Vec<Parted>,
) -> Cursor
    requires enough { at.taken + needs (moves_of step) ≤ length news.now }
    requires number { at.counter + 1 < number_limit }
    requires some { AreSome step.stays.items (moves_of step) }
    requires writes { length writes.old.items + 2 ≤ vec_capacity writes.old }
    requires parted { length parted.old.items + 1 ≤ vec_capacity parted.old }
    ensures writes { nodes_of writes.new.items ≡ nodes_of writes.old.items
        ++ settled_page at.counter at.to step (moves_of step) (drop at.taken news.now) }
    ensures parted { parted.new.items ≡ parted.old.items
        ++ part_page step (moves_of step) (drop at.taken news.now) }
    ensures counter { result.counter ≡ counter_after at.counter (moves_of step) }
    ensures to { result.to ≡ known_after at.to (moves_of step) (drop at.taken news.now) }
    ensures taken { result.taken ≡ at.taken + needs (moves_of step) }
    ensures left { drop result.taken news.now ≡ news_after (moves_of step) (drop at.taken news.now) }
    ensures room { vec_capacity writes.new ≡ vec_capacity writes.old }
    ensures parts { vec_capacity parted.new ≡ vec_capacity parted.old }
{
    let Planned {
        page,
        head,
        mut stays,
        moves,
    } = step;
    match moves {
        None => {
            know(&mut stays, at.to);
            writes.push_reserved(Settled {
                page,
                head,
                entries: stays,
            });
            at
        }
        Some(moves) => {
            let new = news[at.taken];
            let mut entries = moves.entries;
            parted.push_reserved(part(page, new, &stays, &entries));
            know(&mut stays, at.to);
            know(&mut entries, at.to);
            writes.push_reserved(Settled {
                page,
                head: left_head(head, at.counter, new),
                entries: stays,
            });
            writes.push_reserved(Settled {
                page: new,
                head,
                entries,
            });
            Cursor {
                counter: at.counter + 1,
                to: To::Child(new),
                taken: at.taken + 1,
            }
        }
    }
}

// What comes of the root.
fn settle_root(
    step: Planned,
    news: &[PageNo],
    at: Cursor,
    root: Vec<Entry>,
    writes: &mut Vec<Settled>,
    parted: &mut Vec<Parted>,
) -> Option<Raised>
    requires enough { at.taken + (needs (moves_of step) + needs (moves_of step)) ≤ length news.now }
    requires number { at.counter + 1 < number_limit }
    requires low { step.head.level < 255 }
    requires some { AreSome step.stays.items (moves_of step) }
    requires none { root.items ≡ [] }
    requires root { 2 ≤ vec_capacity root }
    requires writes { length writes.old.items + 3 ≤ vec_capacity writes.old }
    requires parted { length parted.old.items + 1 ≤ vec_capacity parted.old }
    ensures writes { nodes_of writes.new.items ≡ nodes_of writes.old.items
        ++ settled_root at.counter at.to step (moves_of step) (drop at.taken news.now) }
    ensures parted { parted.new.items ≡ parted.old.items
        ++ part_root step (moves_of step) (drop at.taken news.now) }
    ensures raised { result ≡ raised_root step.moves (drop at.taken news.now) }
{
    let Planned {
        page,
        head,
        mut stays,
        moves,
    } = step;
    let old = NodeHead {
        ssn: at.counter,
        ..head
    };
    match moves {
        None => {
            know(&mut stays, at.to);
            writes.push_reserved(Settled {
                page,
                head: old,
                entries: stays,
            });
            None
        }
        Some(moves) => {
            let raised = news[at.taken];
            let new = news[at.taken + 1];
            let round = moves.round;
            let mut entries = moves.entries;
            let two = part(raised, new, &stays, &entries);
            know(&mut stays, at.to);
            know(&mut entries, at.to);
            parted.push_reserved(two);
            writes.push_reserved(Settled {
                page: raised,
                head: left_head(old, at.counter, new),
                entries: stays,
            });
            writes.push_reserved(Settled {
                page: new,
                head: old,
                entries,
            });
            writes.push_reserved(Settled {
                page,
                head: top_head(head, at.counter),
                entries: two_entries(root, &two),
            });
            Some(Raised {
                page: raised,
                round,
            })
        }
    }
}

// The header of a page that stays, which draws the next number and leads to the new page.
fn left_head(head: NodeHead, counter: u64, new: PageNo) -> NodeHead
    requires { counter + 1 < number_limit }
    ensures { result ≡ record { level = head.level; ssn = counter + 1; next = new } }
{
    NodeHead {
        level: head.level,
        ssn: counter + 1,
        next: new,
    }
}

// The header of a raised root.
fn top_head(head: NodeHead, counter: u64) -> NodeHead
    requires low { head.level < 255 }
    requires number { counter + 1 < number_limit }
    ensures { result ≡ record { level = head.level + 1; ssn = counter + 1; next = record { 0 = 0 } } }
{
    NodeHead {
        level: head.level + 1,
        ssn: counter + 1,
        next: PageNo(0),
    }
}

// Two pages with the boxes of their entries.
fn part(old: PageNo, new: PageNo, stays: &[Entry], moves: &[Entry]) -> Parted
    requires stays { 0 < length stays.now }
    requires moves { 0 < length moves.now }
    ensures { result ≡ record { old = old; new = new; old_box = least stays.now; new_box = least moves.now } }
{
    Parted {
        old,
        new,
        old_box: least(stays),
        new_box: least(moves),
    }
}

// The entries for two pages, in a list that has room for them.
fn two_entries(room: Vec<Entry>, two: &Parted) -> Vec<Entry>
    requires none { room.items ≡ [] }
    requires room { 2 ≤ vec_capacity room }
    ensures { result.items ≡ entry_for two.now.old_box two.now.old.0 ∷ entry_for two.now.new_box two.now.new.0 ∷ [] }
{
    let mut entries = room;
    entries.push_reserved(Entry {
        b: two.old_box,
        to: To::Child(two.old),
    });
    entries.push_reserved(Entry {
        b: two.new_box,
        to: To::Child(two.new),
    });
    entries
}

// Gives the entries that lead nowhere yet this way.
fn know(entries: &mut Vec<Entry>, to: To)
    ensures { entries.new.items ≡ map (known to) entries.old.items }
{
    for e in entries.iter_mut() {
        *e = known(*e, to);
    }
}

// The entry, which leads there if it led nowhere.
fn known(e: Entry, to: To) -> Entry
    ensures { result ≡ known to e }
{
    match e.to {
        To::Child(page) => { if page.0 == 0 { Entry { b: e.b, to } } else { e } }
        To::Row { .. } => e,
    }
}
