//! Few objects, each of another category.
ghost use Rattle.std.specs.Prelude.{◌≡◌, ◌&&◌, not, nat_lt, length, map, bytes_eq};
ghost use Rattle.std.specs.List.{list_any};
ghost use Rattle.xa_profile.specs.Request.{has_twice};

use crate::category_object::CategoryObject;

/// How many objects are compared with one another, since to order so few would take longer.
const FEW: usize = 8;

/// Whether one of the objects is of the category.
fn has_category(objects: &[CategoryObject], category: &str) -> bool
    ensures { result ≡ list_any (bytes_eq category.now) (map (λ object. object.category) objects.now) }
{
    for object in objects {
        if category == object.category.as_str() {
            return true;
        }
    }
    false
}

/// Whether two of the objects have the same category. Each object is compared with all those after it.
fn has_category_twice(objects: &[CategoryObject]) -> bool
    ensures { result ≡ has_twice (map (λ object. object.category) objects.now) }
{
    let mut rest = objects;
    while let [first, others @ ..] = rest {
        if has_category(others, first.category.as_str()) {
            return true;
        }
        rest = others;
    }
    false
}

/// Whether there are few objects, no two of which have the same category. Nothing is allocated.
pub(crate) fn are_few_and_distinct(objects: &[CategoryObject]) -> bool
    ensures { result
        ≡ (nat_lt (length objects.now) 9 && not (has_twice (map (λ object. object.category) objects.now))) }
{
    objects.len() <= FEW && !has_category_twice(objects)
}
