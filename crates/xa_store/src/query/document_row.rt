//! Documents as rows tell them: the one that was found by its key, and those of which a row tells the key.
ghost use Rattle.std.specs.Prelude.{◌≡◌, IfOk};
ghost use Rattle.xa_store.specs.keeping.Columns.{document_told, key_told, listed_told, text_told};

use crate::query::cell::{bytes_in, flag_in, kind_in, text_in, version_in};
use crate::query::columns::{active_text, document_key, found_document, listed};
use crate::query::row::FromRow;
use sqlite::Row;
use std::alloc::Global;
use xa_policy::DocumentKey;
use xa_records::{ActiveText, Failure, Listed};
use xa_value::Items;

/// A document that was found by its key.
#[derive(Debug, Drop)]
pub(crate) struct FoundDocument {
    /// Its text.
    pub text: Items<u8>,
    /// Whether references may resolve to it.
    pub active: bool,
}

/// Read from the columns of `sql::SHOW_DOCUMENT`.
impl FromRow for FoundDocument {
    ghost told = { document_told };

    fn from_row(_: Global, row: &Row) -> Result<FoundDocument, Failure> {
        let text = bytes_in(row, found_document::BODY)?;
        let active = flag_in(row, found_document::ACTIVE)?;
        Ok(FoundDocument { text, active })
    }
}

/// Read from the columns of `sql::SHOW_DOCUMENTS`.
impl FromRow for Listed {
    ghost told = { listed_told };

    fn from_row(_: Global, row: &Row) -> Result<Listed, Failure> {
        let key = key_in(row)?;
        let active = flag_in(row, listed::ACTIVE)?;
        Ok(Listed { key, active })
    }
}

/// Read from the columns of `sql::SHOW_ACTIVE_DOCUMENTS`.
impl FromRow for ActiveText {
    ghost told = { text_told };

    fn from_row(_: Global, row: &Row) -> Result<ActiveText, Failure> {
        let key = key_in(row)?;
        let text = bytes_in(row, active_text::BODY)?;
        Ok(ActiveText { key, text })
    }
}

/// The key that a row begins with.
fn key_in(row: &Row) -> Result<DocumentKey, Failure>
    ensures { IfOk result (λ key. key ≡ key_told row.now) }
{
    let kind = kind_in(row, document_key::KIND)?;
    let id = text_in(row, document_key::ID)?;
    let version = version_in(row, document_key::VERSION)?;
    Ok(DocumentKey { kind, id, version })
}
