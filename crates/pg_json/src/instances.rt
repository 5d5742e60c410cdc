//! Small bodies and replies, byte for byte. A function without a body says that the instances hold, or don't, as they are listed.
ghost use Rattle.pg_json.specs.InstancesOfReplies.{InstancesOfRows, InstancesOfStatuses, RefusalsAreTold};
ghost use Rattle.pg_json.specs.InstancesOfRequests.{BodiesAreRefused, BodiesAreRequests, InstancesOfNumbers, InstancesOfTokens};

/// Which requests bodies are, and which bodies are none.
pub fn instances_of_requests()
    ensures asked { BodiesAreRequests }
    ensures refused { BodiesAreRefused }
    ensures numbers { InstancesOfNumbers }
    ensures tokens { InstancesOfTokens }
{}

/// The text of each refusal, of a status, of elements, rows and pages.
pub fn instances_of_replies()
    ensures refusals { RefusalsAreTold }
    ensures statuses { InstancesOfStatuses }
    ensures rows { InstancesOfRows }
{}
