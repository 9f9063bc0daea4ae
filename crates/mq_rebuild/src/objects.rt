//! Objects of a manager that comes up from an image.
ghost use Rattle.std.specs.Prelude.{◌≡◌, ◌∷◌, [], IfOk, OnOk};
ghost use Rattle.mq_rebuild.specs.Rebuilt.{objects_set, AreOnce};

use mq_base::{Items, NoMemory};
use mq_objects::{Definitions, Defs, Object};
use std::alloc::Global;

fn add_object(defs: &mut Defs, object: Object) -> Result<(), NoMemory>
    ensures { OnOk result (defs.new.definitions ≡ objects_set (object ∷ []) defs.old.definitions) }
{
    if defs.reserve().is_err() {
        drop(object);
        return Err(NoMemory);
    }
    defs.set(object);
    Ok(())
}

fn add_objects(defs: &mut Defs, objects: Items<Object>) -> Result<(), NoMemory>
    ensures { OnOk result (defs.new.definitions ≡ objects_set objects defs.old.definitions) }
{
    let mut left = objects.into_vec();
    left.reverse();
    while let Some(object) = left.pop() {
        if add_object(defs, object).is_err() {
            return Err(NoMemory);
        }
    }
    Ok(())
}

/// The objects of an image, found by name. No two have one name.
///
/// # Errors
///
/// No memory.
#[tactic(auto, using(crate::proofs::ObjectLaws::all_set))]
pub fn defs_of(alloc: Global, definitions: Definitions) -> Result<Defs, NoMemory>
    requires once { AreOnce definitions.objects }
    ensures { IfOk result (λ defs. defs.definitions ≡ definitions) }
{
    let mut defs = Defs::new(alloc);
    let Definitions { objects, manager } = definitions;
    if add_objects(&mut defs, objects).is_err() {
        drop(defs);
        return Err(NoMemory);
    }
    defs.set_manager(manager);
    Ok(defs)
}
