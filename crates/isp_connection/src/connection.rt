//! A connection as a value, and its calls.

ghost use Rattle.std.specs.Prelude.{◌≡◌, ◌<◌, true, false, IfErr, IfOk, OnOk};
ghost use Rattle.isp_tables.specs.Calls.{Keeps, Serves};
ghost use Rattle.isp_tables.specs.TableLists.{definitions_of};
ghost use Rattle.isp_image.specs.Databases.{Database, HasNoMarked, tables_of};
ghost use Rattle.isp_chained.specs.Chained.{ChainedFile, no_chains};
ghost use Rattle.isp_format.specs.Undo.{undo_slots};
ghost use Rattle.isp_page.specs.Calls.{ContinuesOrLacks, PrintsPiece};
ghost use Rattle.isp_page.specs.Steps.{IsNoDamageOrLacks};
ghost use Rattle.isp_plan.specs.Meaning.{meaning};
ghost use Rattle.isp_serial.specs.Alone.{State, effect_by, settled};
ghost use Rattle.isp_serial.specs.Serial.{place_at};
ghost use Rattle.isp_serial.specs.Transactions.{stays};
ghost use Rattle.isp_connection.specs.Answering.{Answered, MayCome, meant};
ghost use Rattle.isp_exec.specs.Starting.{Suits};
ghost use Rattle.isp_connection.specs.Connections.{Holds, fault_of, pages_of, state_of};
ghost use Rattle.isp_image.specs.Faults.{NamesLaterOrLacks};

use crate::ending::settle;
use crate::running::run;
use isp_base::Bytes;
use isp_exec::{Context, Work};
use isp_page::{Fault, Pages, StoreFault};
use isp_plain::{Reply, Statement};
use isp_plan::meaning_of;
use isp_serial::Place;
use isp_tables::Tables;
use isp_trx::Trx;
use std::alloc::{AllocError, Global};

/// One session's connection to a file, with the file's pages.
#[derive(Drop)]
pub struct Connection<P> {
    pub(crate) alloc: Global,
    pub(crate) context: Context<P>,
    pub(crate) inside: bool,
}

/// Where a statement of the session stands.
fn place_of(session: u32, inside: bool) -> Place
    ensures { result ≡ place_at session inside }
{
    if session == 0 {
        Place::Setup
    } else if inside {
        Place::InTransaction
    } else {
        Place::Session
    }
}

impl<P: Pages> Connection<P> {
    /// A connection of that session, whose number is that of its undo slot, to the file, of which no transaction is unfinished and
    /// no row is marked. The pages come back with the fault.
    ///
    /// # Errors
    ///
    /// Disk; want of memory; or Damaged, as of `load` of isp_catalog.
    pub fn open(alloc: Global, pages: P, session: u32) -> Result<Connection<P>, (Fault, P)>
        requires slot { session < undo_slots }
        requires usable { P.usable pages ≡ true }
        requires none { (P.mini pages).is_begun ≡ false }
        ensures kept { ContinuesOrLacks P.Pages pages (pages_of result) (fault_of result) }
        ensures contents { P.tells
            → IfOk result (λ c. P.contents c.context.pages ≡ P.contents pages) }
        ensures serves { IfOk result (λ c. Serves P.Pages c.context.pages c.context.tables) }
        ensures session { IfOk result (λ c. c.context.trx.session ≡ session) }
        ensures opened { P.tells → (d : Database)
            → ChainedFile (P.shape pages).pages (P.contents pages) d no_chains
            → HasNoMarked d
            → IfOk result (λ c. Holds P.Pages c.context.pages (state_of c)
            (settled (tables_of d)) d) }
        ensures sound { P.tells → (d : Database)
            → ChainedFile (P.shape pages).pages (P.contents pages) d no_chains
            → IfErr result (λ e. IsNoDamageOrLacks e.0) }
        ensures later { IfErr result (λ e. NamesLaterOrLacks e.0) }
    {
        let mut pages = pages;
        match Tables::load(alloc, &mut pages) {
            Ok(tables) => {
                let trx = Trx::begin(alloc, session);
                Ok(Connection {
                    alloc,
                    context: Context { pages, tables, trx },
                    inside: false,
                })
            }
            Err(fault) => Err((fault, pages)),
        }
    }

    /// Its pages. What isn't committed stays in them as it is.
    pub fn into_pages(self) -> P
        ensures { result ≡ self.context.pages }
    {
        let Connection {
            alloc: _,
            context,
            inside: _,
        } = self;
        let Context {
            pages,
            tables: _,
            trx: _,
        } = context;
        pages
    }

    // Does a statement other than BEGIN, COMMIT and ROLLBACK, and commits it outside of a transaction.
    fn execute(&mut self, statement: Statement) -> Result<Reply, Fault>
        requires serves { Serves P.Pages self.old.context.pages self.old.context.tables }
        requires suits { Suits self.old.context.tables statement }
        requires stays { effect_by statement ≡ stays }
        ensures kept { Keeps P.Pages self.old.context.pages self.new.context.pages result }
        ensures serves { OnOk result (Serves P.Pages self.new.context.pages
            self.new.context.tables) }
        ensures session { OnOk result (self.new.context.trx.session
            ≡ self.old.context.trx.session) }
        ensures answered { P.tells → (d : Database) (state : State)
            → Holds P.Pages self.old.context.pages (state_of self.old) state d
            → MayCome self.old.context.trx.session state statement
            → IfOk result (Answered P.Pages self.new.context.pages (state_of self.new) state
            statement d) }
        ensures sound { P.tells → (d : Database) (state : State)
            → Holds P.Pages self.old.context.pages (state_of self.old) state d
            → MayCome self.old.context.trx.session state statement
            → IfErr result IsNoDamageOrLacks }
        ensures later { IfErr result NamesLaterOrLacks }
    {
        let work = Work::start(self.alloc, &self.context, statement);
        let reply = run(&mut self.context, work)?;
        settle(&mut self.context.pages, &mut self.context.trx, self.inside)?;
        Ok(reply)
    }

    // Does a statement.
    fn obey(&mut self, statement: Statement) -> Result<Reply, Fault>
        requires serves { Serves P.Pages self.old.context.pages self.old.context.tables }
        requires suits { Suits self.old.context.tables statement }
        ensures kept { Keeps P.Pages self.old.context.pages self.new.context.pages result }
        ensures serves { OnOk result (Serves P.Pages self.new.context.pages
            self.new.context.tables) }
        ensures session { OnOk result (self.new.context.trx.session
            ≡ self.old.context.trx.session) }
        ensures answered { P.tells → (d : Database) (state : State)
            → Holds P.Pages self.old.context.pages (state_of self.old) state d
            → MayCome self.old.context.trx.session state statement
            → IfOk result (Answered P.Pages self.new.context.pages (state_of self.new) state
            statement d) }
        ensures sound { P.tells → (d : Database) (state : State)
            → Holds P.Pages self.old.context.pages (state_of self.old) state d
            → MayCome self.old.context.trx.session state statement
            → IfErr result IsNoDamageOrLacks }
        ensures later { IfErr result NamesLaterOrLacks }
    {
        match &statement {
            Statement::Begin => {
                self.inside = true;
                Ok(Reply::Ok)
            }
            Statement::Commit => {
                self.commit()?;
                Ok(Reply::Ok)
            }
            Statement::Rollback => {
                self.roll_back()?;
                Ok(Reply::Ok)
            }
            Statement::Create { .. } => self.execute(statement),
            Statement::Insert { .. } => self.execute(statement),
            Statement::Select { .. } => self.execute(statement),
            Statement::Update { .. } => self.execute(statement),
            Statement::Delete { .. } => self.execute(statement),
            Statement::Refused(_) => self.execute(statement),
        }
    }

    /// The number of its session.
    pub fn session(&self) -> u32
        ensures { result ≡ self.now.context.trx.session }
    {
        self.context.trx.session()
    }

    // What the text means, where the session stands.
    fn statement_of(&self, text: &Bytes) -> Result<Statement, AllocError>
        ensures { IfOk result (λ s. s ≡ meaning (definitions_of self.now.context.tables)
            (place_at self.now.context.trx.session self.now.inside) text.now) }
    {
        let place = place_of(self.context.trx.session(), self.inside);
        meaning_of(
            self.alloc,
            self.context.tables.defs(),
            place,
            text.as_slice(),
        )
    }

    /// What the text is answered, and what it does. Outside of a transaction it is committed, for good, before it is answered.
    ///
    /// # Errors
    ///
    /// Disk; want of memory; or Damaged, where the pages aren't those of a kept file.
    pub fn answer(&mut self, text: &Bytes) -> Result<Reply, Fault>
        requires serves { Serves P.Pages self.old.context.pages self.old.context.tables }
        ensures kept { Keeps P.Pages self.old.context.pages self.new.context.pages result }
        ensures serves { OnOk result (Serves P.Pages self.new.context.pages
            self.new.context.tables) }
        ensures session { OnOk result (self.new.context.trx.session
            ≡ self.old.context.trx.session) }
        ensures answered { P.tells → (d : Database) (state : State)
            → Holds P.Pages self.old.context.pages (state_of self.old) state d
            → IfOk result (Answered P.Pages self.new.context.pages (state_of self.new) state
            (meant self.old.context.trx.session text.now state) d) }
        ensures sound { P.tells → (d : Database) (state : State)
            → Holds P.Pages self.old.context.pages (state_of self.old) state d
            → IfErr result IsNoDamageOrLacks }
        ensures later { IfErr result NamesLaterOrLacks }
    {
        let statement = self.statement_of(text)?;
        let reply = self.obey(statement)?;
        Ok(reply)
    }

    /// Prints the bytes through its pages, and changes nothing else.
    ///
    /// # Errors
    ///
    /// Print; then a part of them was printed, from the first byte on.
    pub fn print(&mut self, line: &[u8]) -> Result<(), StoreFault>
        requires usable { P.usable self.old.context.pages ≡ true }
        ensures printed { PrintsPiece P.Pages line.now self.old.context.pages
            self.new.context.pages result }
        ensures contents { P.tells → P.contents self.new.context.pages
            ≡ P.contents self.old.context.pages }
        ensures mini { P.mini self.new.context.pages ≡ P.mini self.old.context.pages }
        ensures same { state_of self.new ≡ state_of self.old }
    {
        self.context.pages.print(line)
    }
}
