//! What goes with a session's searches.

ghost use Rattle.std.specs.Prelude.{ℕ, ◌≡◌, ◌≤◌, filter};
ghost use Rattle.indexmap.specs.IndexSet.{spare};
ghost use Rattle.slab.specs.Slab.{get};
ghost use Rattle.isp_predlock.specs.Inside.{is_kept_id, is_kept_pair, kept_without};

use crate::Sought;
use crate::table::Attached;
use indexmap::IndexSet;
use slab::Slab;

// The session's searches go.
pub(crate) fn drop_searches(searches: &mut Slab<Sought>, session: u32)
    ensures { (id : ℕ) → get searches.new id ≡ kept_without session (get searches.old id) }
{
    searches.retain(|_, sought| sought.session != session);
}

// The numbers of searches that are there stay.
pub(crate) fn keep_order(order: &mut Vec<usize>, searches: &Slab<Sought>)
    ensures { order.new.items ≡ filter (is_kept_id searches.now) order.old.items }
{
    order.retain(|id| searches.contains(*id));
}

// What searches that are there are attached to stays.
pub(crate) fn keep_attached(attached: &mut IndexSet<Attached>, searches: &Slab<Sought>)
    ensures kept { attached.new.keys ≡ filter (is_kept_pair searches.now) attached.old.keys }
    ensures room { spare attached.old ≤ spare attached.new }
{
    attached.retain(|pair| searches.contains(pair.search));
}
