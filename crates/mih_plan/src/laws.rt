//! Laws of plans. The functions do nothing: their contracts are the laws.

ghost use Rattle.mih_plan.specs.Laws.{NearBodiesShareAProbe, PlansAreInOrder, PlansHaveNearBuckets};

/// Two bodies at a distance of at most the radius share a probe: the plan of either has the other's bucket in one of the
/// four tables.
///
/// In the first tables, one more than the radius modulo 4, substrings that share no probe differ in more bits than a
/// quarter of the radius, and in the others in at least as many. So bodies that share none differ in more bits than the
/// radius.
pub fn near_bodies_share_a_probe()
    ensures { NearBodiesShareAProbe }
{}

/// The probes of a plan are by table and then by bucket, and each stands once.
pub fn plans_are_in_order()
    ensures { PlansAreInOrder }
{}

/// A plan has the buckets that are near enough to the body's own, in each of the four tables, and no others.
pub fn plans_have_near_buckets()
    ensures { PlansHaveNearBuckets }
{}
