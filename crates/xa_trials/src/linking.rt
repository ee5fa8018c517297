//! Rows of linking: the tree that a reference leads to.
use crate::answer::Answer;
use crate::field::first_field_and_rest;
use crate::no_answer::NoAnswer;
use crate::references::{documents_of, reference_of};
use xa_link::link;
use xa_policy::Linked;
use xa_shelf::{Shelf, TextReader};

/// Adds the tree: `?` for a reference that leads to nothing; of a policy the name of its algorithm; of a
/// set also its children.
#[cycle(shown)]
fn push_tree(answer: &mut Answer, tree: &Linked) {
    match tree {
        Linked::Unresolved => answer.push_word("?"),
        Linked::Policy(policy) => answer.push_shown("", &policy.get().algorithm()),
        Linked::PolicySet(set, children) => {
            answer.push_shown("(", &set.get().algorithm());
            push_children(answer, children.get().as_slice());
        }
    }
}

/// Adds the trees of a set's children, and its end.
#[cycle(shown)]
fn push_children(answer: &mut Answer, children: &[Linked]) {
    for child in children {
        push_tree(answer, child);
    }
    answer.push_word(")");
}

/// The tree that the reference leads to among the active documents of these texts.
pub fn tree(answer: &mut Answer, fields: &[&str]) -> Result<(), NoAnswer> {
    let (root, texts) = first_field_and_rest(fields)?;
    let alloc = answer.alloc();
    let root = reference_of(alloc, root)?;
    let documents = documents_of(alloc, texts)?;
    let mut shelf = Shelf::new(alloc)?;
    let mut reader = TextReader::new(&mut shelf, None);
    if let Some(tree) = answer.success(link(alloc, &mut reader, &documents, &root)) {
        push_tree(answer, &tree);
    }
    Ok(())
}
