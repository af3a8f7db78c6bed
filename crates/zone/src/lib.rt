// The zone of an address in a region: the types that it subscribes to there, each once, in an order that the precedence allows.
#![tactic(auto)]

ghost use Rattle.std.specs.Prelude.{◌≡◌, ℕ, []};
ghost use Rattle.plan.specs.declared.Plan.{Plan};
ghost use Rattle.plan.specs.Parts.{of_region};
ghost use Rattle.plan.specs.Find.{holder_at, seen};
ghost use Rattle.zone.specs.Order.{preceded, unpreceded, next, zone_list, held, list_of};
ghost use Rattle.zone.specs.Answer.{zone_at, answer};

use plan::{Plan, Region, Seen, Subscriber};
use refusal::Refusal;
use typeset::Members;

// The types in order, each once, and how many there are. The places past len are 0. The memory is fixed, and in a setup received the list may say a length above 32, which is refused with 5.
#[derive(Clone, Copy)]
pub struct Zone {
    pub types: [u8; 32],
    pub len: u8,
}

impl Zone {
    pub fn empty() -> Zone
        ensures { result ≡ held [] }
    {
        Zone {
            types: [0; 32],
            len: 0,
        }
    }

    // The types that it holds: the first len places, of which there are 32.
    pub fn as_slice(&self) -> &[u8]
        ensures { result.now ≡ list_of self.now }
    {
        &self.types[..usize::from(self.len).min(32)]
    }
}

// The types that some type of the set precedes. The rows are lent here and below: a copy of them for each type placed would cost more than what is read of them.
fn preceded(rows: &[u32; 32], set: u32) -> u32
    ensures { result ≡ preceded rows.now set }
{
    let mut found = 0u32;
    for u in Members::of(set) {
        found = typeset::join(found, rows[u as usize]);
    }
    found
}

// The types of the set that no type of the set precedes.
fn unpreceded(rows: &[u32; 32], set: u32) -> u32
    ensures { result ≡ unpreceded rows.now set }
{
    typeset::minus(set, preceded(rows, set))
}

// The lowest of those; in an order with a cycle there may be none, and then the lowest of the set.
fn next(rows: &[u32; 32], set: u32) -> u32
    ensures { result ≡ next rows.now set }
{
    let free = unpreceded(rows, set);
    if free == 0 {
        typeset::lowest(set)
    } else {
        typeset::lowest(free)
    }
}

// The zone of the set under the order of the rows, for any rows and any set. What is kept is only the set of the types not yet placed.
// By number: a place and the set that is left go on together, and the invariant is said by both.
pub fn zone_of(rows: [u32; 32], set: u32) -> Zone
    ensures { result ≡ held (zone_list rows set) }
{
    let mut types = [0u8; 32];
    let mut left = set;
    let size = typeset::size(set);
    for n in 0..size as usize {
        let t = next(&rows, left);
        types[n] = t as u8;
        left = typeset::without(left, t);
    }
    Zone {
        types,
        len: size as u8,
    }
}

// The zone of a subscriber in a region, by the order of the part that is shown; where a plan shows the part and has the subscriber at an address, the zone of that address.
pub fn zone_shown(region: Region, v: Seen, holder: Subscriber) -> Zone
    ensures value { result ≡ held (zone_list (of_region region v.source_order v.target_order) (of_region region holder.source holder.target)) }
    ensures shown { (p : Plan) (first second a : ℕ) → seen p first second ≡ v → holder_at p a ≡ holder → result ≡ held (zone_at p region a) }
{
    let source_order = v.source_order;
    let target_order = v.target_order;
    match region {
        Region::Source => zone_of(source_order, holder.source),
        Region::Target => zone_of(target_order, holder.target),
    }
}

// The zone of an address in a region, for any plan and any number: for a caller that has tested the plan. Nobody's zone is empty.
pub fn zone_at(plan: Plan, region: Region, address: u32) -> Zone
    ensures { result ≡ held (zone_at plan region address) }
{
    let v = plan::look(plan, address, 0);
    zone_shown(region, v, v.first)
}

// The zone of an address in a region of any plan; 23 at place 0 for a plan that breaks a rule.
#[tactic(auto, unfolding(crate::specs::Answer::answer, plan::specs::Sound::verdict))]
pub fn zone_for(plan: Plan, region: Region, address: u32) -> Result<Zone, Refusal>
    ensures { result ≡ answer plan region address }
{
    if !soundness::sound(plan) {
        return Err(Refusal::RuleBroken(0));
    }
    Ok(zone_at(plan, region, address))
}
