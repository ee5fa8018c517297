//! The tables of members: which members each object has.
ghost use Rattle.std.specs.Prelude.{◌≡◌, Some, bytes_eq, slice_get};
ghost use Rattle.xa_notation.specs.Tables.{alternatives_of, first_of, member_of, members_of, name_of};

use crate::member::Member;

/// An entry of a table of members.
#[derive(Clone, Copy, Debug, PartialEq, Eq)]
pub(crate) enum Entry {
    /// A member that has to be there.
    Required(Member),
    /// A member that may be left out.
    Optional(Member),
}

impl Entry {
    /// The member.
    pub(crate) fn member(self) -> Member
        ensures { result ≡ member_of self }
    {
        match self {
            Entry::Required(member) | Entry::Optional(member) => member,
        }
    }

    /// Whether this is the entry of the member of this name.
    pub(crate) fn is_of(self, name: &str) -> bool
        ensures { result ≡ bytes_eq name.now (name_of (member_of self)) }
    {
        name == self.member().name()
    }
}

/// An object with a table of members.
#[derive(Clone, Copy, Debug, PartialEq, Eq)]
pub enum Object {
    /// A policy (core, section 5.14).
    Policy,
    /// A policy set (core, section 5.1).
    PolicySet,
    /// A reference to a policy or to a policy set (core, sections 5.10 and 5.11).
    Reference,
    /// A rule (core, section 5.21).
    Rule,
    /// A target (core, section 5.6).
    Target,
    /// A part of a target (core, section 5.7).
    AnyOf,
    /// An alternative in a part of a target (core, section 5.8).
    AllOf,
    /// A match (core, section 5.9).
    Match,
    /// A variable's definition (core, section 5.23).
    VariableDefinition,
    /// A literal (core, section 5.31).
    AttributeValue,
    /// An attribute designator (core, section 5.29).
    AttributeDesignator,
    /// A function of arguments (core, section 5.27).
    Apply,
    /// A function as an argument (core, section 5.28).
    Function,
    /// A variable (core, section 5.24).
    VariableReference,
    /// An obligation (core, section 5.39).
    ObligationExpression,
    /// A piece of advice (core, section 5.40).
    AdviceExpression,
    /// An attribute that an obligation or a piece of advice carries (core, section 5.41).
    AttributeAssignmentExpression,
    /// A token that a domain gets, with its role.
    NewToken,
    /// A token that a domain loses.
    OldToken,
    /// A source of attributes.
    Source,
    /// A row of a source of attributes.
    SourceRow,
}

impl Object {
    /// The object's members, in table order.
    #[tactic(auto, unfolding(crate::specs::Tables::members_of))]
    pub(crate) fn members(self) -> &'static [Entry]
        ensures { result.now ≡ members_of self }
    {
        match self {
            Object::Policy => &[
                Entry::Required(Member::PolicyId),
                Entry::Required(Member::Version),
                Entry::Required(Member::RuleCombiningAlgId),
                Entry::Optional(Member::Description),
                Entry::Optional(Member::Target),
                Entry::Optional(Member::VariableDefinition),
                Entry::Optional(Member::Rule),
                Entry::Optional(Member::ObligationExpressions),
                Entry::Optional(Member::AdviceExpressions),
            ],
            Object::PolicySet => &[
                Entry::Required(Member::PolicySetId),
                Entry::Required(Member::Version),
                Entry::Required(Member::PolicyCombiningAlgId),
                Entry::Optional(Member::Description),
                Entry::Optional(Member::Target),
                Entry::Optional(Member::Children),
                Entry::Optional(Member::ObligationExpressions),
                Entry::Optional(Member::AdviceExpressions),
            ],
            Object::Reference => &[
                Entry::Required(Member::Id),
                Entry::Optional(Member::Version),
                Entry::Optional(Member::EarliestVersion),
                Entry::Optional(Member::LatestVersion),
            ],
            Object::Rule => &[
                Entry::Required(Member::RuleId),
                Entry::Required(Member::Effect),
                Entry::Optional(Member::Description),
                Entry::Optional(Member::Target),
                Entry::Optional(Member::Condition),
                Entry::Optional(Member::ObligationExpressions),
                Entry::Optional(Member::AdviceExpressions),
            ],
            Object::Target => &[Entry::Optional(Member::AnyOf)],
            Object::AnyOf => &[Entry::Required(Member::AllOf)],
            Object::AllOf => &[Entry::Required(Member::Match)],
            Object::Match => &[
                Entry::Required(Member::MatchId),
                Entry::Required(Member::AttributeValue),
                Entry::Required(Member::AttributeDesignator),
            ],
            Object::VariableDefinition => &[
                Entry::Required(Member::VariableId),
                Entry::Required(Member::Expression),
            ],
            Object::AttributeValue => &[
                Entry::Required(Member::DataType),
                Entry::Required(Member::Value),
            ],
            Object::AttributeDesignator => &[
                Entry::Required(Member::Category),
                Entry::Required(Member::AttributeId),
                Entry::Required(Member::DataType),
                Entry::Required(Member::MustBePresent),
                Entry::Optional(Member::Issuer),
            ],
            Object::Apply => &[
                Entry::Required(Member::FunctionId),
                Entry::Optional(Member::Description),
                Entry::Optional(Member::Expression),
            ],
            Object::Function => &[Entry::Required(Member::FunctionId)],
            Object::VariableReference => &[Entry::Required(Member::VariableId)],
            Object::ObligationExpression => &[
                Entry::Required(Member::ObligationId),
                Entry::Required(Member::FulfillOn),
                Entry::Optional(Member::AttributeAssignmentExpression),
            ],
            Object::AdviceExpression => &[
                Entry::Required(Member::AdviceId),
                Entry::Required(Member::AppliesTo),
                Entry::Optional(Member::AttributeAssignmentExpression),
            ],
            Object::AttributeAssignmentExpression => &[
                Entry::Required(Member::AttributeId),
                Entry::Optional(Member::Category),
                Entry::Optional(Member::Issuer),
                Entry::Required(Member::Expression),
            ],
            Object::NewToken => &[
                Entry::Required(Member::Role),
                Entry::Required(Member::Token),
            ],
            Object::OldToken => &[Entry::Required(Member::Token)],
            Object::Source => &[Entry::Required(Member::Row)],
            Object::SourceRow => &[
                Entry::Required(Member::Category),
                Entry::Required(Member::Entity),
                Entry::Required(Member::AttributeId),
                Entry::Required(Member::DataType),
                Entry::Required(Member::Value),
                Entry::Optional(Member::Issuer),
            ],
        }
    }
}

/// An object that has exactly one of several members.
#[derive(Clone, Copy, Debug, PartialEq, Eq)]
pub(crate) enum Choice {
    /// The whole document.
    Document,
    /// A child of a policy set.
    Child,
    /// An expression (core, section 5.25).
    Expression,
    /// The root of a domain's policies, if there is one.
    Root,
}

impl Choice {
    /// The members of which it has one.
    #[tactic(auto, unfolding(crate::specs::Tables::alternatives_of))]
    pub(crate) fn alternatives(self) -> &'static [Member]
        ensures { result.now ≡ alternatives_of self }
    {
        match self {
            Choice::Document => &[Member::Policy, Member::PolicySet],
            Choice::Child => &[
                Member::Policy,
                Member::PolicySet,
                Member::PolicyIdReference,
                Member::PolicySetIdReference,
            ],
            Choice::Expression => &[
                Member::AttributeValue,
                Member::AttributeDesignator,
                Member::Apply,
                Member::Function,
                Member::VariableReference,
            ],
            Choice::Root => &[Member::PolicyIdReference, Member::PolicySetIdReference],
        }
    }

    /// The first of them, which is named if none is there.
    #[tactic(auto, unfolding(crate::specs::Tables::alternatives_of, crate::specs::Tables::first_of))]
    pub(crate) fn first(self) -> Member
        ensures value { result ≡ first_of self }
        ensures head { slice_get (alternatives_of self) 0 ≡ Some result }
    {
        match self {
            Choice::Document => Member::Policy,
            Choice::Child => Member::Policy,
            Choice::Expression => Member::AttributeValue,
            Choice::Root => Member::PolicyIdReference,
        }
    }
}
