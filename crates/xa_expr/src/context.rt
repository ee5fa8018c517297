//! Where the values of attributes come from.
ghost use Rattle.std.specs.Prelude.{◌≡◌, List, IfOk};
ghost use Rattle.xa_value.specs.declared.value.Value.{Value};
ghost use Rattle.xa_bag.specs.Bag.{bag_of};
ghost use Rattle.xa_expr.specs.declared.designator.Designator.{Designator};
ghost use Rattle.xa_expr.specs.Looked.{looked};
ghost use Rattle.xa_expr.specs.Misfits.{KeepsTypes};

use crate::designator::Designator;
use crate::looked::Looked;
use crate::work::units_of_look;
use std::alloc::{AllocError, Global};
use xa_bag::Bag;
use xa_value::Value;

/// Where the values of attributes come from (core, section 7.3): to each designator its bag, which is of
/// the designator's type.
pub trait Context {
    /// The values of the designator's bag.
    ghost values_of: { Self → Designator → List Value };

    /// The bag of the designator, whether or not it must be present.
    fn bag(&self, alloc: Global, designator: &Designator) -> Result<Bag, AllocError>
        ensures { IfOk result (λ bag.
            bag ≡ bag_of designator.now.data_type (values_of self.now designator.now)) };

    /// The bag that a designator gives is of its data type (core, section 7.3.5): a law, which each
    /// context proves. It does nothing when it runs.
    fn keeps_types(&self)
        ensures { KeepsTypes (values_of self.now) };

    /// What a look for the value in the designator's bag comes to. By default the bag is asked for,
    /// which takes the units of the bag and those of a look at each value. A context that has the values
    /// itself looks at them where they are, and one that looks at one after another takes the same
    /// units, though no bag is made. One that searches them by their order takes those of its search
    /// instead.
    fn look_for(
        &self,
        alloc: Global,
        designator: &Designator,
        sought: &Value,
    ) -> Result<Looked, AllocError>
        ensures { IfOk result (λ found. found ≡ looked sought.now (values_of self.now designator.now)) }
    {
        let bag = self.bag(alloc, designator)?;
        self.spend(units_of_look(&bag))?;
        Ok(Looked::in_bag(sought, &bag))
    }

    /// Takes the units from the work that the message may still ask for. A context that counts no work
    /// lets all of it be done. No clause speaks of it: what is refused ends the evaluation as want of memory
    /// does, and who has made the context asks it which of both it was.
    fn spend(&self, units: u64) -> Result<(), AllocError> {
        Ok(())
    }
}
