//! The names of members.
ghost use Rattle.std.specs.Prelude.{◌≡◌};
ghost use Rattle.xa_profile.specs.Member.{name_of};

/// A member of a request or a response that isn't a category's shorthand.
#[derive(Clone, Copy, Debug, PartialEq, Eq)]
pub(crate) enum Member {
    /// `Request`.
    Request,
    /// `ReturnPolicyIdList`.
    ReturnPolicyIdList,
    /// `CombinedDecision`.
    CombinedDecision,
    /// `Category`.
    Category,
    /// `MultiRequests`.
    MultiRequests,
    /// `RequestReference`.
    RequestReference,
    /// `ReferenceId`.
    ReferenceId,
    /// `CategoryId`.
    CategoryId,
    /// `Id`.
    Id,
    /// `Attribute`.
    Attribute,
    /// `AttributeId`.
    AttributeId,
    /// `DataType`.
    DataType,
    /// `Issuer`.
    Issuer,
    /// `IncludeInResult`.
    IncludeInResult,
    /// `Value`.
    Value,
    /// `Response`.
    Response,
    /// `Decision`.
    Decision,
    /// `Status`.
    Status,
    /// `StatusCode`.
    StatusCode,
    /// `Obligations`.
    Obligations,
    /// `AssociatedAdvice`.
    AssociatedAdvice,
    /// `AttributeAssignment`.
    AttributeAssignment,
    /// `PolicyIdentifierList`.
    PolicyIdentifierList,
    /// `PolicyIdReference`.
    PolicyIdReference,
    /// `PolicySetIdReference`.
    PolicySetIdReference,
    /// `Version`.
    Version,
}

impl Member {
    /// The member's name.
    #[tactic(auto, unfolding(crate::specs::Member::name_of))]
    pub(crate) fn name(self) -> &'static str
        ensures { result.now ≡ name_of self }
    {
        match self {
            Member::Request => "Request",
            Member::ReturnPolicyIdList => "ReturnPolicyIdList",
            Member::CombinedDecision => "CombinedDecision",
            Member::Category => "Category",
            Member::MultiRequests => "MultiRequests",
            Member::RequestReference => "RequestReference",
            Member::ReferenceId => "ReferenceId",
            Member::CategoryId => "CategoryId",
            Member::Id => "Id",
            Member::Attribute => "Attribute",
            Member::AttributeId => "AttributeId",
            Member::DataType => "DataType",
            Member::Issuer => "Issuer",
            Member::IncludeInResult => "IncludeInResult",
            Member::Value => "Value",
            Member::Response => "Response",
            Member::Decision => "Decision",
            Member::Status => "Status",
            Member::StatusCode => "StatusCode",
            Member::Obligations => "Obligations",
            Member::AssociatedAdvice => "AssociatedAdvice",
            Member::AttributeAssignment => "AttributeAssignment",
            Member::PolicyIdentifierList => "PolicyIdentifierList",
            Member::PolicyIdReference => "PolicyIdReference",
            Member::PolicySetIdReference => "PolicySetIdReference",
            Member::Version => "Version",
        }
    }
}
