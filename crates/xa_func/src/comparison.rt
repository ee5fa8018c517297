//! Questions on the order of two values.
ghost use Rattle.std.specs.Prelude.{◌≡◌};
ghost use Rattle.xa_func.specs.Comparison.{meets, compared};

use crate::func_id::Comparison;
use std::cmp::Ordering;
use xa_value::Value;

/// Whether the order is what the question asks for.
fn meets(comparison: Comparison, ordering: Ordering) -> bool
    ensures { result ≡ meets comparison ordering }
{
    match comparison {
        Comparison::GreaterThan => ordering == Ordering::Greater,
        Comparison::GreaterThanOrEqual => ordering != Ordering::Less,
        Comparison::LessThan => ordering == Ordering::Less,
        Comparison::LessThanOrEqual => ordering != Ordering::Greater,
    }
}

/// Whether the first value compares to the second as the question asks (XACML 3.0, core, appendix A.3.6
/// and A.3.8).
pub fn is_as_asked(comparison: Comparison, left: &Value, right: &Value) -> bool
    ensures { result ≡ compared comparison left.now right.now }
{
    match left.order(right) {
        None => false,
        Some(ordering) => meets(comparison, ordering),
    }
}
