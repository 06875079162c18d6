//! A statement that goes on step by step: what it is, and how it goes on in memory.

ghost use Rattle.std.specs.Prelude.{◌≡◌, ◌<◌, ◌≤◌, ◌+◌, ◌^◌, [], nat_lt, true, length, slice_get, IfSome, OnOk};
ghost use Rattle.std.specs.Option.{option_copied};
ghost use Rattle.isp_changes.specs.Stages.{is_insert};
ghost use Rattle.isp_plain.specs.declared.statement.Reply.TheVariants as reply;
ghost use Rattle.isp_work.specs.Works.{IsChangeOf, IsSmall, IsSmallOut, TakesSmall, changed_by, failed_by, first_of, is_delete, is_ready, is_select, looked_by, made_by, passed, read_by, read_out, rows_named, started, took, went_on};

use crate::found::{Changed, Found, Looked};
use crate::phase::Phase;
use isp_base::PageNo;
use isp_plain::{Refusal, Reply, Row, Rows, Statement};
use std::alloc::{AllocError, Global};
use std::mem;

/// A statement on its way to its answer.
#[derive(Drop)]
pub struct Progress {
    statement: Statement,
    // The place of its table, from 0.
    place: usize,
    // The rows that hold of those that it read, as they are answered or written.
    rows: Rows,
    // How many of its rows are written.
    next: usize,
    // The page of the leaf that it read last.
    after: Option<PageNo>,
    // How many leaves it may read behind that one.
    budget: u32,
    // How many changes its transaction had noted before it.
    base: usize,
    phase: Phase,
    reply: Reply,
}

pub(crate) fn is_insert(statement: &Statement) -> bool
    ensures { result ≡ is_insert statement.now }
{
    match statement {
        Statement::Insert { .. } => true,
        _ => false,
    }
}

fn is_select(statement: &Statement) -> bool
    ensures { result ≡ is_select statement.now }
{
    match statement {
        Statement::Select { .. } => true,
        _ => false,
    }
}

fn is_delete(statement: &Statement) -> bool
    ensures { result ≡ is_delete statement.now }
{
    match statement {
        Statement::Delete { .. } => true,
        _ => false,
    }
}

// The rows that the statement writes or deletes.
fn rows_named<'a>(statement: &'a Statement, read: &'a Rows) -> &'a [Row]
    ensures { result.now ≡ rows_named statement.now read.now }
{
    match statement {
        Statement::Insert { rows, .. } => rows.as_slice(),
        _ => read.as_slice(),
    }
}

// What comes first of a row: its key is looked up where it has to be free.
fn first_of(statement: &Statement) -> Phase
    ensures { result ≡ first_of (is_insert statement.now) }
{
    if is_insert(statement) {
        Phase::Looking
    } else {
        Phase::Changing
    }
}

impl Progress {
    // A statement on the table at a place, of which nothing is done.
    pub(crate) fn new(
        alloc: Global,
        statement: Statement,
        place: usize,
        base: usize,
        budget: u32,
        phase: Phase,
        reply: Reply,
    ) -> Progress
        ensures { result ≡ started statement place base budget phase reply }
    {
        Progress {
            statement,
            place,
            rows: Rows::new(alloc),
            next: 0,
            after: None,
            budget,
            base,
            phase,
            reply,
        }
    }

    /// Its statement.
    pub fn statement(&self) -> &Statement
        ensures { result.now ≡ self.now.statement }
    {
        &self.statement
    }

    /// The place of its table, from 0.
    pub fn place(&self) -> usize
        ensures { result ≡ self.now.place }
    {
        self.place
    }

    /// How many changes its transaction had noted before it.
    pub fn base(&self) -> usize
        ensures { result ≡ self.now.base }
    {
        self.base
    }

    /// The page of the leaf that it read last, if another one stands behind it.
    pub fn after(&self) -> Option<PageNo>
        ensures { result ≡ self.now.after }
    {
        self.after
    }

    /// How many leaves it may read behind that one.
    pub fn budget(&self) -> u32
        ensures { result ≡ self.now.budget }
    {
        self.budget
    }

    /// What comes next.
    pub fn phase(&self) -> Phase
        ensures { result ≡ self.now.phase }
    {
        self.phase
    }

    /// Whether it deletes rows.
    pub fn deletes(&self) -> bool
        ensures { result ≡ is_delete self.now.statement }
    {
        is_delete(&self.statement)
    }

    /// Whether it has its answer.
    pub fn is_ready(&self) -> bool
        ensures { result ≡ is_ready self.now.phase }
    {
        match self.phase {
            Phase::Ready => true,
            _ => false,
        }
    }

    /// Its answer, once it is ready. It is handed out once.
    pub fn answer(&mut self) -> Reply
        ensures result { result ≡ self.old.reply }
        ensures rest { self.new ≡ record self.old { reply = reply.Ok } }
    {
        mem::replace(&mut self.reply, Reply::Ok)
    }

    /// The next row.
    pub fn row(&self) -> Option<&Row>
        ensures { option_copied result ≡ slice_get (rows_named self.now.statement self.now.rows) self.now.next }
    {
        rows_named(&self.statement, &self.rows).get(self.next)
    }

    // Turns to the next row, or to the answer.
    pub(crate) fn go_on(&mut self)
        ensures is { self.new ≡ went_on self.old }
        ensures small { length (rows_named self.old.statement self.old.rows) < 2 ^ 64 }
    {
        if self.next < rows_named(&self.statement, &self.rows).len() {
            self.phase = first_of(&self.statement);
        } else {
            self.reply = Reply::Count(self.next as u64);
            self.phase = Phase::Ready;
        }
    }

    /// Turns to undoing, where so many changes are noted, or to the refusal as its answer.
    pub fn fail(&mut self, refusal: Refusal, noted: usize)
        ensures { self.new ≡ failed_by self.old refusal noted }
    {
        if self.base < noted {
            self.phase = Phase::Undoing(refusal);
        } else {
            self.reply = Reply::Err(refusal);
            self.phase = Phase::Ready;
        }
    }

    /// Goes on with whether the table was made.
    pub fn make_on(&mut self, made: bool, noted: usize)
        ensures { self.new ≡ made_by self.old made noted }
    {
        if made {
            self.reply = Reply::Ok;
            self.phase = Phase::Ready;
        } else {
            self.fail(Refusal::FileFull, noted);
        }
    }

    // Goes on where all is read.
    fn read_out(&mut self, alloc: Global)
        ensures is { self.new ≡ read_out self.old }
        ensures small { IsSmall self.old }
    {
        if is_select(&self.statement) {
            let rows = mem::replace(&mut self.rows, Rows::new(alloc));
            self.reply = Reply::Rows(rows);
            self.phase = Phase::Ready;
        } else {
            self.go_on();
        }
    }

    // Goes on to the leaf behind that page, or where none is left.
    fn read_on(&mut self, alloc: Global, next: Option<PageNo>)
        requires left { IfSome next (λ page. 1 ≤ self.old.budget) }
        ensures is { self.new ≡ read_by next self.old }
        ensures small { IsSmallOut next self.old }
    {
        match next {
            Some(page) => {
                self.after = Some(page);
                self.budget -= 1;
            }
            None => self.read_out(alloc),
        }
    }

    /// Goes on with what was read: the leaf behind that page comes next, or no more is left.
    ///
    /// # Errors
    ///
    /// Want of memory.
    pub fn take(
        &mut self,
        alloc: Global,
        found: Found,
        next: Option<PageNo>,
        noted: usize,
    ) -> Result<(), AllocError>
        requires left { IfSome next (λ page. 1 ≤ self.old.budget) }
        ensures is { OnOk result (self.new ≡ took self.old found next noted) }
        ensures small { OnOk result (TakesSmall self.old found next) }
    {
        match found {
            Found::Rows(rows) => {
                self.rows.append(rows)?;
                self.read_on(alloc, next);
            }
            Found::TooLarge => self.fail(Refusal::RowTooLarge, noted),
        }
        Ok(())
    }

    /// Goes on with what was found of the next key.
    pub fn look_on(&mut self, looked: Looked, noted: usize)
        ensures { self.new ≡ looked_by self.old looked noted }
    {
        match looked {
            Looked::Over => self.go_on(),
            Looked::Free => self.phase = Phase::Changing,
            Looked::Taken(refusal) => self.fail(refusal, noted),
        }
    }

    // Goes on behind the next row, which is there.
    fn pass(&mut self)
        requires { self.old.next < length (rows_named self.old.statement self.old.rows) }
        ensures { self.new ≡ passed self.old }
    {
        let count = rows_named(&self.statement, &self.rows).len();
        if self.next < count {
            self.next += 1;
        }
        self.go_on();
    }

    /// Goes on with what became of the next row.
    pub fn change_on(&mut self, changed: Changed, noted: usize)
        requires { IsChangeOf self.old changed }
        ensures { self.new ≡ changed_by self.old changed noted }
    {
        match changed {
            Changed::Over => self.go_on(),
            Changed::Done => self.pass(),
            Changed::Full => self.fail(Refusal::FileFull, noted),
        }
    }
}
