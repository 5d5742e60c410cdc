//! SET, REMOVE and DELETE.

ghost use Rattle.pg_soundness.specs.InstancesOfChanges.{InstancesOfChanges};
ghost use Rattle.pg_soundness.specs.Changing.{SetAgrees, RemoveAgrees, DeleteAgrees, SetIsComputed, SetFaultIsComputed, RemoveIsComputed, RemoveFaultIsComputed, DeleteIsComputed, DeleteFaultIsComputed, OneChange, OneRemoval, OneDeletion, SetIsDecided, RemoveIsDecided, DeleteIsDecided};

/// SET, REMOVE and DELETE agree with their meaning.
pub fn law_of_changing()
    ensures sets { SetAgrees }
    ensures removes { RemoveAgrees }
    ensures deletes { DeleteAgrees }
{}

/// The functions of SET and REMOVE compute their meaning: that graph, or that fault, and no other.
pub fn law_of_changes()
    ensures sets { SetIsComputed }
    ensures set_faults { SetFaultIsComputed }
    ensures removes { RemoveIsComputed }
    ensures remove_faults { RemoveFaultIsComputed }
{}

/// So does the function of DELETE: the ids that are named, the test that none of them stays connected, and the removal.
pub fn law_of_deletions()
    ensures deletes { DeleteIsComputed }
    ensures faults { DeleteFaultIsComputed }
{}

/// The meaning of such a clause leaves one graph at most.
pub fn law_of_one_change()
    ensures sets { OneChange }
    ensures removes { OneRemoval }
    ensures deletes { OneDeletion }
{}

/// At every graph and rows such a clause has a result or a fault, and not both.
pub fn law_of_decisions()
    ensures sets { SetIsDecided }
    ensures removes { RemoveIsDecided }
    ensures deletes { DeleteIsDecided }
{}

/// Instances of SET, REMOVE and DELETE, of each one that holds and one that doesn't.
#[tactic(auto, using(crate::proofs::InstancesOfChanges::instances_of_changes))]
pub fn instances_of_changes()
    ensures { InstancesOfChanges }
{}
