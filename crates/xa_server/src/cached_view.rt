//! A cached view, and how much memory it takes.
ghost use Rattle.std.specs.Prelude.{◌≡◌, ◌*◌};
ghost use Rattle.xa_server.specs.handling.Views.{added, bytes_of_tree, bytes_of_view, times};

use crate::revision::Revision;
use xa_decide::View;

/// What any view takes at least, in bytes: room for the texts of its rows of attributes, which came in one
/// body of at most 524,288 bytes, and for the boxes of its tree's sets (1,000 at most, some 50,000 bytes).
/// Both fit unless that body is nearly all texts.
const VIEW_BYTES: usize = 524_288;

/// The bytes that a row of attributes takes beside its texts.
const ROW_BYTES: usize = 512;

/// The bytes that a document takes for each byte of its text: by its shape 0.6 to 6.4, as they were
/// measured (`bench/views.py`).
const BYTES_OF_A_TEXT_BYTE: usize = 8;

/// The bytes that a node of the linked tree takes: a set's list has room for its children and no more.
const NODE_BYTES: usize = 24;

/// The view of a domain at a revision of it.
#[derive(Drop)]
pub(crate) struct CachedView {
    /// The revision of the domain whose view it is.
    pub(crate) revision: Revision,
    /// The view.
    pub(crate) view: View,
    /// The memory that it takes, by an estimate.
    pub(crate) bytes: usize,
}

impl CachedView {
    /// The view of a domain at that revision, for which so many bytes of texts were read, with so many rows.
    pub(crate) fn new(revision: Revision, view: View, bytes_read: usize, rows: usize) -> CachedView
        ensures revision { result.revision ≡ revision }
        ensures viewed { result.view ≡ view }
        ensures bytes { result.bytes ≡ added (bytes_of_view bytes_read rows) (bytes_of_tree result.view) }
    {
        let bytes = bytes_of_view(bytes_read, rows).saturating_add(bytes_of_tree(&view));
        CachedView {
            revision,
            view,
            bytes,
        }
    }
}

/// An estimate of the memory that a view takes but for its linked tree, by the bytes of the texts that were
/// read for it and the number of its rows.
fn bytes_of_view(bytes_read: usize, rows: usize) -> usize
    ensures { result ≡ bytes_of_view bytes_read rows }
{
    let documents = bytes_read.saturating_mul(BYTES_OF_A_TEXT_BYTE);
    let rows = rows.saturating_mul(ROW_BYTES);
    documents.saturating_add(rows).saturating_add(VIEW_BYTES)
}

/// An estimate of the memory that the view's linked tree takes, which may have far more nodes than the
/// documents have bytes.
fn bytes_of_tree(view: &View) -> usize
    ensures { result ≡ bytes_of_tree view.now }
{
    view.nodes().saturating_mul(NODE_BYTES)
}
