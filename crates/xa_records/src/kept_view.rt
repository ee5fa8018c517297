//! What decides in a domain, as it is kept.
use crate::active_text::ActiveText;
use xa_decide::SourceRow;
use xa_policy::Reference;
use xa_value::Items;

/// What decides in a domain: the texts of its active documents, its root and the rows of its attribute
/// source.
#[derive(Debug, Drop)]
pub struct KeptView {
    /// The texts of the active documents, in the order of their keys.
    pub texts: Items<ActiveText>,
    /// The reference at which decisions start, if one is set.
    pub root: Option<Reference>,
    /// The rows of the attribute source, in order.
    pub source: Items<SourceRow>,
}
