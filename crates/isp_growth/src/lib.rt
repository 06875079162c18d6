//! What a division makes of the levels of a clustered tree, and of the pages that it stands on, while it is on its way up: laws
//! alone, with no word on the bytes within a page.
#![tactic(auto)]
