//! What a statement works on.

use isp_tables::Tables;
use isp_trx::Trx;

/// The pages of a file, the definitions of its tables, and the transaction of the session whose turn it is.
#[derive(Drop)]
pub struct Context<P> {
    /// The file's pages.
    pub pages: P,
    /// Its tables.
    pub tables: Tables,
    /// What the session has changed since its transaction began.
    pub trx: Trx,
}
