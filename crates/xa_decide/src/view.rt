//! The view of a domain: what its decisions depend on.
ghost use Rattle.std.specs.Prelude.{◌≡◌, ◌+◌, ◌≤◌, [], false, true, IfOk, IsOk, None};
ghost use Rattle.xa_link.specs.Linking.{link};
ghost use Rattle.xa_link.specs.Reading.{reading};
ghost use Rattle.xa_shelf.specs.Allowance.{IsBeyond};
ghost use Rattle.xa_decide.specs.declared.limits.OverLimit.TheVariants as over_limit;
ghost use Rattle.xa_decide.specs.Decision.{tree_of, view_by};
ghost use Rattle.xa_decide.specs.Limits.{IfOver};
ghost use Rattle.xa_decide.specs.Nodes.{counted, nodes, nodes_of_all, nodes_of_tree};
ghost use Rattle.xa_decide.specs.Reading.{IsNotTooLarge, reading_for};
ghost use Rattle.xa_decide.specs.Timeless.{is_timeless_tree};

use crate::limits::OverLimit;
use crate::source::Source;
use crate::source_row::SourceRow;
use crate::timeless::is_timeless_tree;
use std::alloc::{AllocError, Global};
use std::marker::Model;
use xa_link::{Active, LinkError, link};
use xa_policy::{Linked, Reference};
use xa_shelf::TextReader;
use xa_value::{Items, OrMemory, memory_apart};

/// What a domain's decisions depend on: the tree that its root stands for among its active documents, if
/// it has one, and its source rows; made ready for any number of requests: the tree is linked, and the
/// rows are in order. Of the documents it holds what the tree shares with them, and nothing of those to
/// which the root doesn't lead.
#[derive(Debug, Drop)]
pub struct View {
    /// The tree that decides, if there is one; it may be too large.
    tree: Option<Result<Linked, LinkError>>,
    /// The source of attributes.
    source: Source,
    /// Whether no designator of the tree names the clock.
    timeless: bool,
}

impl Model for View {
    ghost use Rattle.std.specs.Coded.{codes};
    ghost use Rattle.xa_policy.specs.contracts.linked.Linked as linked;
    ghost use Rattle.std.specs.Prelude.{◌≡◌};
    ghost use Rattle.xa_decide.specs.Decision.{Viewed};
    ghost use Rattle.xa_decide.specs.Timeless.{is_timeless_tree};

    ghost Value = { Viewed };

    ghost coded = { Prim.hlevel (codes, linked.the_row.coded) };

    ghost view = { λ v. record { tree = v.tree; source = v.source } };

    ghost invariant = { λ v. v.timeless ≡ is_timeless_tree v.tree };
}

impl View {
    /// A view of these documents, this root and these rows. The documents to which the root leads are
    /// read, the tree is linked and the rows are put in order here, once for all requests. Fails with
    /// `OverLimit::Reading`, if the reader's limit is reached, and never by a reader without one.
    pub fn new(
        alloc: Global,
        reader: &mut TextReader<'_>,
        active: &[Active],
        root: &Option<Reference>,
        source: Items<SourceRow>,
    ) -> Result<View, OrMemory<OverLimit>>
        ensures value { IfOk result (λ view. view ≡ view_by active.now root.now source) }
        ensures read { IfOk result (λ view.
            IsNotTooLarge view.tree → reader.old.left ≡ reader.new.left + reading_for active.now root.now) }
        ensures within { IfOk result (λ _. reading_for active.now root.now ≤ reader.old.left) }
        ensures refused { reader.old.is_spent ≡ false → reader.new.is_spent ≡ true
            → IsBeyond reader.old (reading_for active.now root.now) }
        ensures over { IfOver result (λ over.
            (over ≡ over_limit.Reading) × (reader.new.is_spent ≡ true)) }
    {
        let source = Source::new(alloc, source)?;
        let tree = match tree_of(alloc, reader, active, root) {
            Ok(tree) => tree,
            // Linking ends by either.
            Err(_) if reader.is_spent() => return Err(OrMemory::Error(OverLimit::Reading)),
            Err(error) => return Err(OrMemory::from(error)),
        };
        let timeless = is_timeless_tree(&tree);
        Ok(View {
            tree,
            source,
            timeless,
        })
    }

    /// A view of no documents, no root and no rows.
    pub fn of_nothing(alloc: Global) -> Result<View, AllocError>
        ensures { IfOk result (λ view. view ≡ view_by [] None []) }
    {
        Ok(View {
            tree: None,
            source: Source::new(alloc, Items::new(alloc))?,
            timeless: true,
        })
    }

    /// The tree that decides, if there is one.
    pub(crate) fn tree(&self) -> &Option<Result<Linked, LinkError>>
        ensures { result.now ≡ self.now.tree }
    {
        &self.tree
    }

    /// Whether no designator of the tree names the clock.
    pub(crate) fn is_timeless(&self) -> bool
        ensures { result ≡ is_timeless_tree self.now.tree }
    {
        self.timeless
    }

    /// How many nodes the linked tree has: its policies and policy sets, and the references that lead
    /// nowhere, of which a set may have many; 0 if there is no tree. The memory of a view grows with
    /// them, as it does with its documents and rows.
    pub fn nodes(&self) -> usize
        ensures { result ≡ nodes_of_tree self.now.tree }
    {
        match &self.tree {
            Some(Ok(linked)) => nodes_of(linked),
            Some(Err(_)) | None => 0,
        }
    }

    /// The rows of the source of attributes.
    pub(crate) fn source(&self) -> &Source
        ensures { result.now ≡ self.now.source }
    {
        &self.source
    }
}

/// Links the tree that a root stands for; it may be too large.
fn linked_tree(
    alloc: Global,
    reader: &mut TextReader<'_>,
    active: &[Active],
    root: &Reference,
) -> Result<Result<Linked, LinkError>, AllocError>
    ensures value { IfOk result (λ tree. tree ≡ link active.now root.now) }
    ensures read { IfOk result (λ tree.
        IsOk tree → reader.old.left ≡ reader.new.left + reading active.now root.now) }
    ensures within { IfOk result (λ _. reading active.now root.now ≤ reader.old.left) }
    ensures refused { reader.old.is_spent ≡ false → reader.new.is_spent ≡ true
        → IsBeyond reader.old (reading active.now root.now) }
{
    memory_apart(link(alloc, reader, active, root))
}

/// The tree that decides, if there is one.
fn tree_of(
    alloc: Global,
    reader: &mut TextReader<'_>,
    active: &[Active],
    root: &Option<Reference>,
) -> Result<Option<Result<Linked, LinkError>>, AllocError>
    ensures value { IfOk result (λ tree. tree ≡ tree_of active.now root.now) }
    ensures read { IfOk result (λ tree.
        IsNotTooLarge tree → reader.old.left ≡ reader.new.left + reading_for active.now root.now) }
    ensures within { IfOk result (λ _. reading_for active.now root.now ≤ reader.old.left) }
    ensures refused { reader.old.is_spent ≡ false → reader.new.is_spent ≡ true
        → IsBeyond reader.old (reading_for active.now root.now) }
{
    match root {
        Some(root) => Ok(Some(linked_tree(alloc, reader, active, root)?)),
        None => Ok(None),
    }
}

/// How many nodes the tree has: its policies and policy sets, and the references that lead nowhere.
/// What this costs grows with them, as linking did.
#[cycle(nodes)]
#[tactic(auto, using(crate::proofs::NodesLemmas::one_counted))]
fn nodes_of(tree: &Linked) -> usize
    ensures { result ≡ counted (nodes tree.now) }
{
    match tree {
        Linked::PolicySet(_, children) => {
            nodes_of_all(children.get().as_slice()).saturating_add(1)
        }
        Linked::Policy(_) | Linked::Unresolved => 1,
    }
}

/// How many nodes the trees have.
#[cycle(nodes)]
#[tactic(auto, using(crate::proofs::NodesLemmas::more_counted, crate::proofs::NodesLemmas::counted_once, crate::proofs::NodesLemmas::all_counted))]
fn nodes_of_all(trees: &[Linked]) -> usize
    ensures { result ≡ counted (nodes_of_all trees.now) }
{
    let mut nodes = 0usize;
    for tree in trees {
        nodes = nodes.saturating_add(nodes_of(tree));
    }
    nodes
}
