//! The names of the combining algorithms.
ghost use Rattle.std.specs.Prelude.{◌≡◌, bytes_eq, find, option_map};
ghost use Rattle.xa_notation.specs.Algorithms.{is_name, policy_algorithm_named, policy_uri_of};
ghost use Rattle.xa_notation.specs.Algorithms.{rule_algorithm_named, rule_uri_of};

use xa_policy::Alg;

/// All combining algorithms.
const ALGORITHMS: [Alg; 8] = [
    Alg::DenyOverrides,
    Alg::PermitOverrides,
    Alg::OrderedDenyOverrides,
    Alg::OrderedPermitOverrides,
    Alg::DenyUnlessPermit,
    Alg::PermitUnlessDeny,
    Alg::FirstApplicable,
    Alg::OnlyOneApplicable,
];

/// The algorithm's name in a policy (XACML 3.0, core, appendix C), if it may stand there.
#[tactic(auto, unfolding(crate::specs::Algorithms::rule_uri_of))]
fn rule_uri(algorithm: Alg) -> Option<&'static str>
    ensures { option_map (λ uri. uri.now) result ≡ rule_uri_of algorithm }
{
    match algorithm {
        Alg::DenyOverrides => Some(
            "urn:oasis:names:tc:xacml:3.0:rule-combining-algorithm:deny-overrides",
        ),
        Alg::PermitOverrides => Some(
            "urn:oasis:names:tc:xacml:3.0:rule-combining-algorithm:permit-overrides",
        ),
        Alg::OrderedDenyOverrides => Some(
            "urn:oasis:names:tc:xacml:3.0:rule-combining-algorithm:ordered-deny-overrides",
        ),
        Alg::OrderedPermitOverrides => Some(
            "urn:oasis:names:tc:xacml:3.0:rule-combining-algorithm:ordered-permit-overrides",
        ),
        Alg::DenyUnlessPermit => Some(
            "urn:oasis:names:tc:xacml:3.0:rule-combining-algorithm:deny-unless-permit",
        ),
        Alg::PermitUnlessDeny => Some(
            "urn:oasis:names:tc:xacml:3.0:rule-combining-algorithm:permit-unless-deny",
        ),
        Alg::FirstApplicable => Some(
            "urn:oasis:names:tc:xacml:1.0:rule-combining-algorithm:first-applicable",
        ),
        Alg::OnlyOneApplicable => None,
    }
}

/// The algorithm's name in a policy set.
#[tactic(auto, unfolding(crate::specs::Algorithms::policy_uri_of))]
fn policy_uri(algorithm: Alg) -> &'static str
    ensures { result.now ≡ policy_uri_of algorithm }
{
    match algorithm {
        Alg::DenyOverrides =>
            "urn:oasis:names:tc:xacml:3.0:policy-combining-algorithm:deny-overrides",
        Alg::PermitOverrides =>
            "urn:oasis:names:tc:xacml:3.0:policy-combining-algorithm:permit-overrides",
        Alg::OrderedDenyOverrides =>
            "urn:oasis:names:tc:xacml:3.0:policy-combining-algorithm:ordered-deny-overrides",
        Alg::OrderedPermitOverrides =>
            "urn:oasis:names:tc:xacml:3.0:policy-combining-algorithm:ordered-permit-overrides",
        Alg::DenyUnlessPermit =>
            "urn:oasis:names:tc:xacml:3.0:policy-combining-algorithm:deny-unless-permit",
        Alg::PermitUnlessDeny =>
            "urn:oasis:names:tc:xacml:3.0:policy-combining-algorithm:permit-unless-deny",
        Alg::FirstApplicable =>
            "urn:oasis:names:tc:xacml:1.0:policy-combining-algorithm:first-applicable",
        Alg::OnlyOneApplicable =>
            "urn:oasis:names:tc:xacml:1.0:policy-combining-algorithm:only-one-applicable",
    }
}

/// Whether the text is the algorithm's name in a policy.
fn is_rule_name(text: &str, algorithm: Alg) -> bool
    ensures { result ≡ is_name text.now (rule_uri_of algorithm) }
{
    match rule_uri(algorithm) {
        Some(uri) => text == uri,
        None => false,
    }
}

/// Whether the text is the algorithm's name in a policy set.
fn is_policy_name(text: &str, algorithm: Alg) -> bool
    ensures { result ≡ bytes_eq text.now (policy_uri_of algorithm) }
{
    text == policy_uri(algorithm)
}

/// The first of the algorithms that the text names in a policy.
fn first_rule_named(algorithms: &[Alg], text: &str) -> Option<Alg>
    ensures { result ≡ find (λ a. is_name text.now (rule_uri_of a)) algorithms.now }
{
    algorithms
        .iter()
        .copied()
        .find(|algorithm| is_rule_name(text, *algorithm))
}

/// The first of the algorithms that the text names in a policy set.
fn first_policy_named(algorithms: &[Alg], text: &str) -> Option<Alg>
    ensures { result ≡ find (λ a. bytes_eq text.now (policy_uri_of a)) algorithms.now }
{
    algorithms
        .iter()
        .copied()
        .find(|algorithm| is_policy_name(text, *algorithm))
}

/// The algorithm that the text names in a policy.
#[tactic(auto, unfolding(crate::specs::Algorithms::rule_algorithm_named))]
pub(crate) fn rule_algorithm_named(text: &str) -> Option<Alg>
    ensures { result ≡ rule_algorithm_named text.now }
{
    first_rule_named(&ALGORITHMS, text)
}

/// The algorithm that the text names in a policy set.
#[tactic(auto, unfolding(crate::specs::Algorithms::policy_algorithm_named))]
pub(crate) fn policy_algorithm_named(text: &str) -> Option<Alg>
    ensures { result ≡ policy_algorithm_named text.now }
{
    first_policy_named(&ALGORITHMS, text)
}
