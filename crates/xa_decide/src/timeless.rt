//! Whether what is answered is the same at every moment.
ghost use Rattle.std.specs.Prelude.{◌≡◌};
ghost use Rattle.xa_decide.specs.Timeless.{ContextsDifferInTheClock, TimelessAnswersStay};
ghost use Rattle.xa_decide.specs.Timeless.{TimelessRequestsStay, is_timeless_tree};

use xa_link::LinkError;
use xa_policy::{Linked, timeless};

/// Whether no designator of the tree names the clock (XACML 3.0, core, appendix B.7). If there is no tree,
/// or it is too large, none is asked for.
pub(crate) fn is_timeless_tree(tree: &Option<Result<Linked, LinkError>>) -> bool
    ensures { result ≡ is_timeless_tree tree.now }
{
    match tree {
        Some(Ok(linked)) => timeless(linked),
        Some(Err(_)) | None => true,
    }
}

/// Law: what is answered to a body, and what is decided of a request, is the same at every two moments, if
/// no attribute that the clock gives is asked for. The contexts at two moments differ in these attributes
/// alone.
pub fn timeless_answers_stay()
    ensures contexts { ContextsDifferInTheClock }
    ensures requests { TimelessRequestsStay }
    ensures answers { TimelessAnswersStay }
{}
