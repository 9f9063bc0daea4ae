//! Laws of what the scripted faults make of the items that are offered.
ghost use Rattle.std.specs.Prelude.{◌≡◌, ◌++◌, ◌∷◌, [], List};
ghost use Rattle.std.specs.List.{AllByRecursion};
ghost use Rattle.mq_cable.specs.declared.item.Item.{Item};
ghost use Rattle.mq_cable.specs.declared.fault.Fault.{Fault};
ghost use Rattle.mq_cable.specs.Faults.{Offered, made, pushed_of, offered_of, IsMadeOf};

/// Where no fault is scripted, what is pushed is what was offered, and no extra item is due.
pub fn without_faults_all_is_pushed()
    ensures { (offered : List Offered) → made [] offered ≡ offered_of offered }
{}

/// One more offer adds what is pushed of it to what the faults made of those before.
pub fn one_more_offer_adds_its_own()
    ensures { (faults : List Fault) (offered : List Offered) (next : Offered) → made faults (offered ++ next ∷ []) ≡ made faults offered ++ pushed_of faults (offered_of offered) next.item next.extras }
{}

/// Each item pushed is one of those offered, as it was or, where a fault spoils it, with another first byte.
pub fn each_pushed_item_was_offered()
    ensures { (faults : List Fault) (offered : List Offered) → AllByRecursion (IsMadeOf (offered_of offered)) (made faults offered) }
{}
