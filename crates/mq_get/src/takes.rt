//! What a get asks for.
ghost use Rattle.std.specs.Prelude.{◌≡◌};
ghost use Rattle.mq_spec_manager.specs.Words.{is_destructive, is_under, needs_browse};

use mq_calls::Take;

/// Whether the row is taken, not browsed.
pub(crate) fn is_destructive(take: &Take) -> bool
    ensures { result ≡ is_destructive take.now }
{
    match take {
        Take::Next | Take::UnderCursor => true,
        Take::BrowseFirst | Take::BrowseNext | Take::BrowseUnder => false,
    }
}

/// Whether the row under the cursor is asked for.
pub(crate) fn is_under(take: &Take) -> bool
    ensures { result ≡ is_under take.now }
{
    match take {
        Take::UnderCursor | Take::BrowseUnder => true,
        Take::Next | Take::BrowseFirst | Take::BrowseNext => false,
    }
}

/// Whether a handle that browses is needed.
pub(crate) fn needs_browse(take: &Take) -> bool
    ensures { result ≡ needs_browse take.now }
{
    match take {
        Take::UnderCursor | Take::BrowseFirst | Take::BrowseNext | Take::BrowseUnder => true,
        Take::Next => false,
    }
}
