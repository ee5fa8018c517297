//! The names of the members of documents and bodies.
ghost use Rattle.std.specs.Prelude.{◌≡◌, Some};
ghost use Rattle.xa_notation.specs.Tables.{name_of};

use std::fmt;

/// A member of an object in a document, or in the body of a message that administers a domain. Those of
/// documents are named as in the XML schema of XACML 3.0 (core, section 5).
#[derive(Clone, Copy, Debug, PartialEq, Eq)]
pub enum Member {
    Policy,
    PolicySet,
    PolicyIdReference,
    PolicySetIdReference,
    PolicyId,
    PolicySetId,
    Version,
    RuleCombiningAlgId,
    PolicyCombiningAlgId,
    Description,
    Target,
    VariableDefinition,
    Rule,
    /// The content of a policy set, in order: this project's own name.
    Children,
    ObligationExpressions,
    AdviceExpressions,
    Id,
    EarliestVersion,
    LatestVersion,
    RuleId,
    Effect,
    Condition,
    AnyOf,
    AllOf,
    Match,
    MatchId,
    AttributeValue,
    AttributeDesignator,
    VariableId,
    Expression,
    Apply,
    Function,
    VariableReference,
    DataType,
    Value,
    Category,
    AttributeId,
    MustBePresent,
    Issuer,
    FunctionId,
    ObligationId,
    FulfillOn,
    AdviceId,
    AppliesTo,
    AttributeAssignmentExpression,
    /// What a token may do: this project's own name.
    Role,
    /// A token: this project's own name.
    Token,
    /// The rows of the source of attributes, in order: this project's own name.
    Row,
    /// Whose attribute a row of the source holds: this project's own name.
    Entity,
}

impl Member {
    /// The member's name.
    #[tactic(auto, unfolding(crate::specs::Tables::name_of))]
    pub fn name(self) -> &'static str
        ensures { result.now ≡ name_of self }
    {
        match self {
            Member::Policy => "Policy",
            Member::PolicySet => "PolicySet",
            Member::PolicyIdReference => "PolicyIdReference",
            Member::PolicySetIdReference => "PolicySetIdReference",
            Member::PolicyId => "PolicyId",
            Member::PolicySetId => "PolicySetId",
            Member::Version => "Version",
            Member::RuleCombiningAlgId => "RuleCombiningAlgId",
            Member::PolicyCombiningAlgId => "PolicyCombiningAlgId",
            Member::Description => "Description",
            Member::Target => "Target",
            Member::VariableDefinition => "VariableDefinition",
            Member::Rule => "Rule",
            Member::Children => "Children",
            Member::ObligationExpressions => "ObligationExpressions",
            Member::AdviceExpressions => "AdviceExpressions",
            Member::Id => "Id",
            Member::EarliestVersion => "EarliestVersion",
            Member::LatestVersion => "LatestVersion",
            Member::RuleId => "RuleId",
            Member::Effect => "Effect",
            Member::Condition => "Condition",
            Member::AnyOf => "AnyOf",
            Member::AllOf => "AllOf",
            Member::Match => "Match",
            Member::MatchId => "MatchId",
            Member::AttributeValue => "AttributeValue",
            Member::AttributeDesignator => "AttributeDesignator",
            Member::VariableId => "VariableId",
            Member::Expression => "Expression",
            Member::Apply => "Apply",
            Member::Function => "Function",
            Member::VariableReference => "VariableReference",
            Member::DataType => "DataType",
            Member::Value => "Value",
            Member::Category => "Category",
            Member::AttributeId => "AttributeId",
            Member::MustBePresent => "MustBePresent",
            Member::Issuer => "Issuer",
            Member::FunctionId => "FunctionId",
            Member::ObligationId => "ObligationId",
            Member::FulfillOn => "FulfillOn",
            Member::AdviceId => "AdviceId",
            Member::AppliesTo => "AppliesTo",
            Member::AttributeAssignmentExpression => "AttributeAssignmentExpression",
            Member::Role => "Role",
            Member::Token => "Token",
            Member::Row => "Row",
            Member::Entity => "Entity",
        }
    }
}

impl fmt::Display for Member {
    ghost output = { λ member. Some (name_of member) };

    fn fmt<W: fmt::Write>(&self, f: &mut fmt::Formatter<W>) -> fmt::Result {
        f.write_str(self.name())
    }
}
