//! The laws, for the proofs of callers: none of these functions does anything when it runs.

ghost use Rattle.element_maps.specs.Laws.{CommittedLaw, CostLaw, DecidesLaw, ExactCostLaw, HeldLaw, NextLaw};
ghost use Rattle.element_maps.specs.Laws.{NothingLaw, ReadLaw, SameLaw, SizeLaw, StaysLaw, SynchronisedLaw};
ghost use Rattle.element_maps.specs.Laws.{UnchangedNamesLaw};
ghost use Rattle.element_maps.specs.Laws.{CommittableLaw, UntestedLaw};

/// Changes that make the map a storage holds into another may be committed (`taken`). The view after it is the one that
/// the old view and both maps determine (`committed`); the storage holds the other map, if its values pass the test
/// (`held`), as a view within its limits (`read`) and with the other's size (`size`). Only what differs is written
/// (`cost`, `exact_cost`): nothing where both are equal (`nothing`), and no change names an element that both have
/// alike (`others`).
pub fn changes_make_maps()
    ensures taken { CommittableLaw }
    ensures committed { CommittedLaw }
    ensures held { HeldLaw }
    ensures read { ReadLaw }
    ensures size { SizeLaw }
    ensures cost { CostLaw }
    ensures exact_cost { ExactCostLaw }
    ensures nothing { NothingLaw }
    ensures others { UnchangedNamesLaw }
{}

/// With no test of contents the map of a view is the view's own (`untested`); with any it may be the next that the
/// storage is to hold (`synchronised`). Elements are equal exactly where comparing them (`same_element`) says so
/// (`same`).
pub fn views_are_maps()
    ensures untested { UntestedLaw }
    ensures synchronised { SynchronisedLaw }
    ensures same { SameLaw }
{}

/// Comparing two maps (`same_map`) decides whether they are equal (`decides`), and by it the view after a sync: the old
/// one where nothing differs (`stays`), and else the one after the commit of what differs (`next`).
pub fn syncs_are_decided()
    ensures decides { DecidesLaw }
    ensures stays { StaysLaw }
    ensures next { NextLaw }
{}
