//! The documents to which a root leads, which are read before the tree is made: whether a limit of reading
//! is passed then rests on the documents and the root alone, and not on how far a tree was made.
ghost use Rattle.std.specs.Prelude.{◌≡◌, ◌==◌, [], Some, None, Ok, IfOk};
ghost use Rattle.xa_link.specs.placing.Progress.{Counted, led_to_within};
ghost use Rattle.xa_link.specs.placing.Reach.{Gathers, named_by, some_named_by};

use crate::linking::MAX_PATH_LEN;
use crate::placed::Placed;
use crate::resolved::Resolved;
use std::alloc::AllocError;
use xa_shelf::TextReader;
use xa_value::Shared;

/// Reads each document to which a reference leads that stands for the one at the place, once. Documents are
/// read in breadth: first that at the place, then those for which references in it stand, and so on.
/// What this costs grows with what is read.
pub(crate) fn read_all(
    resolved: &mut Resolved<'_>,
    reader: &mut TextReader<'_>,
    place: Option<usize>,
) -> Result<(), AllocError>
    requires { resolved.old.read ≡ [] }
    ensures exact { place ≡ None → result ≡ Ok tt }
    ensures kept { resolved.new.active ≡ resolved.old.active }
    ensures read { Counted result (led_to_within 17 resolved.old.active [] place)
        resolved.old resolved.new reader.old reader.new }
{
    match place {
        Some(place) => read_from(resolved, reader, place),
        None => Ok(()),
    }
}

/// Reads the document at the place, and those to which it leads. Each round goes one document further.
fn read_from(
    resolved: &mut Resolved<'_>,
    reader: &mut TextReader<'_>,
    place: usize,
) -> Result<(), AllocError>
    requires { resolved.old.read ≡ [] }
    ensures kept { resolved.new.active ≡ resolved.old.active }
    ensures read { Counted result (led_to_within 17 resolved.old.active [] (Some place))
        resolved.old resolved.new reader.old reader.new }
{
    let mut last = Vec::new(resolved.alloc());
    read_new(resolved, reader, place, &mut last)?;
    let mut depth = 1;
    while depth < MAX_PATH_LEN {
        last = read_next(resolved, reader, last.as_slice())?;
        depth += 1;
    }
    Ok(())
}

/// Reads the documents for which references in these stand, and gives those that weren't read before.
fn read_next(
    resolved: &mut Resolved<'_>,
    reader: &mut TextReader<'_>,
    documents: &[Shared<Placed>],
) -> Result<Vec<Shared<Placed>>, AllocError>
    ensures kept { resolved.new.active ≡ resolved.old.active }
    ensures read { Counted result (some_named_by documents.now)
        resolved.old resolved.new reader.old reader.new }
    ensures found { IfOk result (λ found. Gathers resolved.old resolved.new [] found.items) }
{
    let mut found = Vec::new(resolved.alloc());
    for document in documents {
        read_named(resolved, reader, document.get(), &mut found)?;
    }
    Ok(found)
}

/// Reads the documents for which references in the document stand, and puts those that weren't read before
/// to the end of what was found.
#[cycle(naming)]
fn read_named(
    resolved: &mut Resolved<'_>,
    reader: &mut TextReader<'_>,
    document: &Placed,
    found: &mut Vec<Shared<Placed>>,
) -> Result<(), AllocError>
    ensures kept { resolved.new.active ≡ resolved.old.active }
    ensures read { Counted result (named_by document.now)
        resolved.old resolved.new reader.old reader.new }
    ensures found { IfOk result (λ _.
        Gathers resolved.old resolved.new found.old.items found.new.items) }
{
    match document {
        Placed::Policy(_) | Placed::Reference(None) => Ok(()),
        Placed::PolicySet(_, children) => {
            read_named_by_all(resolved, reader, children.as_slice(), found)
        }
        Placed::Reference(Some(place)) => read_new(resolved, reader, *place, found),
    }
}

/// Reads the documents for which references in these parts stand, part by part.
#[cycle(naming)]
fn read_named_by_all(
    resolved: &mut Resolved<'_>,
    reader: &mut TextReader<'_>,
    parts: &[Placed],
    found: &mut Vec<Shared<Placed>>,
) -> Result<(), AllocError>
    ensures kept { resolved.new.active ≡ resolved.old.active }
    ensures read { Counted result (some_named_by parts.now)
        resolved.old resolved.new reader.old reader.new }
    ensures found { IfOk result (λ _.
        Gathers resolved.old resolved.new found.old.items found.new.items) }
{
    for part in parts {
        read_named(resolved, reader, part, found)?;
    }
    Ok(())
}

/// Reads the document at the place, unless it was read before, and puts it to the end of what was found, if
/// there is one.
fn read_new(
    resolved: &mut Resolved<'_>,
    reader: &mut TextReader<'_>,
    place: usize,
    found: &mut Vec<Shared<Placed>>,
) -> Result<(), AllocError>
    ensures kept { resolved.new.active ≡ resolved.old.active }
    ensures read { Counted result (λ other. other == place)
        resolved.old resolved.new reader.old reader.new }
    ensures found { IfOk result (λ _.
        Gathers resolved.old resolved.new found.old.items found.new.items) }
{
    if resolved.is_read(place) {
        return Ok(());
    }
    if let Some(document) = resolved.document_at(reader, place)? {
        found.push(document)?;
    }
    Ok(())
}
