//! Which tables a keeper's store has.
ghost use Rattle.std.specs.Prelude.{◌≡◌, if◌then◌else◌};
ghost use Rattle.xa_store.specs.Keeper.{are_only_ours};
ghost use Rattle.xa_store.specs.declared.keeper.tables.Tables.TheVariants.{WithOthers};

/// The tables that a store had when it was opened.
#[derive(Clone, Copy, Debug)]
pub(crate) enum Tables {
    /// A keeper's tables as they are made, and no others.
    OnlyOurs,
    /// A keeper's tables beside others, or made otherwise.
    WithOthers,
}

impl Tables {
    /// Whether they are a keeper's tables and no others.
    pub(crate) fn are_only_ours(self) -> bool
        ensures { result ≡ are_only_ours self }
    {
        match self {
            Tables::OnlyOurs => true,
            Tables::WithOthers => false,
        }
    }

    /// These, if nothing else is there; or they stand beside others.
    pub(crate) fn if_alone(self, are_alone: bool) -> Tables
        ensures { result ≡ (if are_alone then self else WithOthers) }
    {
        if are_alone { self } else { Tables::WithOthers }
    }
}
