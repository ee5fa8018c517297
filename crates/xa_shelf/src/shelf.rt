//! The shelf: at most 128 documents, of which the least recently used goes.
ghost use Rattle.std.specs.Prelude.{◌≡◌, ◌∷◌, [], true, false, take, is_some};
ghost use Rattle.std.specs.Prelude.{Ok, IfOk, OnOk, OnErr, IfSome, IsOk, IsErr};
ghost use Rattle.xa_value.specs.Gives.{Gives};
ghost use Rattle.xa_notation.specs.Document.{document_of};
ghost use Rattle.xa_shelf.specs.Readings.{AreDocuments, IsRead, asked_for};
ghost use Rattle.xa_shelf.specs.Readings.{found, is_among, one_more, texts_of, unanswered};

use lru::LruCache;
use std::alloc::{AllocError, Global};
use std::marker::Model;
use std::num::NonZeroUsize;
use xa_notation::{NotationError, Parsed};
use xa_value::{OrMemory, Shared};

/// The most documents that are kept: their texts, of at most 65,536 bytes each, come to 8 MiB at most.
const MAX_DOCUMENTS: usize = 128;

/// Documents, each under its whole text. Contracts see the texts, the last asked for first, and how many
/// texts weren't held, and so were read.
#[derive(Drop)]
pub struct Shelf {
    alloc: Global,
    documents: LruCache<String, Shared<Parsed>>,
    /// How many texts weren't held, and so were read.
    readings: u64,
}

impl Model for Shelf {
    ghost use Rattle.std.specs.Prelude.{◌≡◌};
    ghost use Rattle.xa_shelf.specs.Readings.{AreDocuments, Shelved, texts_of};

    ghost Value = { Shelved };

    ghost view = { λ shelf. record { texts = texts_of shelf.documents.entries; readings = shelf.readings } };

    ghost invariant = { λ shelf. AreDocuments shelf.documents.entries × (shelf.documents.cap ≡ 128) };
}

impl Shelf {
    /// No documents, and no readings.
    pub fn new(alloc: Global) -> Result<Shelf, AllocError>
        ensures { IfOk result (λ shelf. shelf ≡ record { texts = []; readings = 0 }) }
    {
        let size = NonZeroUsize::new(MAX_DOCUMENTS).unwrap();
        Ok(Shelf {
            alloc,
            documents: LruCache::new(alloc, size)?,
            readings: 0,
        })
    }

    /// A share of the text's document, or the text's first fault. A text that is found is neither read
    /// nor copied, and its document is now the last asked for. A fault isn't kept, nor a document for which
    /// there is no memory. Clause `err`: what an error leaves, one that tells want of memory, too. No text
    /// comes or goes by it.
    pub fn get_or_read(&mut self, text: &[u8]) -> Result<Shared<Parsed>, OrMemory<NotationError>>
        ensures value { Gives result (document_of text.now) }
        ensures found { is_among text.now self.old.texts ≡ true → self.new ≡ found text.now self.old }
        ensures read { is_among text.now self.old.texts ≡ false → IsRead text.now self.old self.new }
        ensures faulty { IsErr (document_of text.now)
            → self.new ≡ record { texts = self.old.texts; readings = one_more self.old.readings } }
        ensures err { OnErr result (self.new ≡ unanswered text.now self.old) }
    {
        // For the proof: the documents' keys are `String`s, so each text that is held is UTF-8.
        let _documents = &self.documents;
        let Ok(written) = str::from_utf8(text) else {
            return self.read(text);
        };
        match share_under(&mut self.documents, written)? {
            Some(document) => Ok(document),
            None => self.read_and_keep(written),
        }
    }

    /// How many texts weren't held, and so were read, as far as they can be counted.
    pub fn readings(&self) -> u64
        ensures { result ≡ self.now.readings }
    {
        self.readings
    }

    /// Reads the text.
    fn read(&mut self, text: &[u8]) -> Result<Shared<Parsed>, OrMemory<NotationError>>
        ensures value { Gives result (document_of text.now) }
        ensures counted { self.new
            ≡ record { texts = self.old.texts; readings = one_more self.old.readings } }
    {
        self.readings = self.readings.saturating_add(1);
        let document = Parsed::read(self.alloc, text)?;
        Ok(Shared::new(self.alloc, document)?)
    }

    /// Reads the text, which isn't held, and keeps its document.
    fn read_and_keep(&mut self, text: &str) -> Result<Shared<Parsed>, OrMemory<NotationError>>
        requires { is_among text.now self.old.texts ≡ false }
        ensures value { Gives result (document_of text.now) }
        ensures read { IsRead text.now self.old self.new }
        ensures faulty { IsErr (document_of text.now)
            → self.new ≡ record { texts = self.old.texts; readings = one_more self.old.readings } }
        ensures err { OnErr result
            (self.new ≡ record { texts = self.old.texts; readings = one_more self.old.readings }) }
    {
        let document = self.read(text.as_bytes())?;
        // Without memory it isn't kept, and is answered all the same.
        let _kept = keep(self.alloc, &mut self.documents, text, &document);
        Ok(document)
    }
}

/// A share of the document that stands under the text.
fn share_under(
    documents: &mut LruCache<String, Shared<Parsed>>,
    text: &str,
) -> Result<Option<Shared<Parsed>>, AllocError>
    requires { AreDocuments documents.old.entries }
    ensures documents { AreDocuments documents.new.entries }
    ensures cap { documents.new.cap ≡ documents.old.cap }
    ensures texts { texts_of documents.new.entries ≡ asked_for text.now (texts_of documents.old.entries) }
    ensures among { IfOk result (λ there.
        is_some there ≡ is_among text.now (texts_of documents.old.entries)) }
    ensures found { IfOk result (λ there. IfSome there (λ document. document_of text.now ≡ Ok document)) }
    ensures unshared { OnErr result
        (IsOk (document_of text.now) × (is_among text.now (texts_of documents.old.entries) ≡ true)) }
{
    match documents.get(text) {
        Some(document) => Ok(Some(document.clone()?)),
        None => Ok(None),
    }
}

/// Keeps a share of the document under a copy of its text. Without memory nothing changes.
fn keep(
    alloc: Global,
    documents: &mut LruCache<String, Shared<Parsed>>,
    text: &str,
    document: &Shared<Parsed>,
) -> Result<(), AllocError>
    requires documents { AreDocuments documents.old.entries × (document_of text.now ≡ Ok document.now) }
    requires cap { documents.old.cap ≡ 128 }
    requires new { is_among text.now (texts_of documents.old.entries) ≡ false }
    ensures documents { AreDocuments documents.new.entries }
    ensures cap { documents.new.cap ≡ 128 }
    ensures kept { OnOk result
        (texts_of documents.new.entries ≡ take 128 (text.now ∷ texts_of documents.old.entries)) }
    ensures left { OnErr result (documents.new ≡ documents.old) }
{
    let text = String::from_str(alloc, text)?;
    let share = document.clone()?;
    documents.put(text, share)?;
    Ok(())
}
