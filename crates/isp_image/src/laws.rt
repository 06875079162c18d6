//! What a marked row that goes leaves of a file's tables, and which pages a file stands on.
ghost use Rattle.isp_image.specs.Laws.{DroppingKeeps, KeptIsLocal, SetBackIsOld};

/// A marked row that goes changes no table.
pub fn law_dropping_keeps()
    ensures { DroppingKeeps }
{}

/// What is set at a key and set back is the old list.
pub fn law_set_back_is_old()
    ensures { SetBackIsOld }
{}

/// A kept file stands on its pages in use alone.
pub fn law_kept_is_local()
    ensures { KeptIsLocal }
{}
