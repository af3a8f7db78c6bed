// Routing: the four steps from a setup sent to the callee box and the setup it receives (manual section 6).
#![tactic(auto)]

ghost use Rattle.std.specs.Prelude.{◌≡◌, ◌≤◌, length, take, drop, Ok};
ghost use Rattle.std.proofs.lemmas.List.Edits.{sets};
ghost use Rattle.plan.specs.declared.Plan.{Plan};
ghost use Rattle.plan.specs.Find.{holder_at, seen};
ghost use Rattle.plan.specs.Parts.{of_region};
ghost use Rattle.setup.specs.Dialling.{string_of};
ghost use Rattle.zone.specs.Order.{list_of};
ghost use Rattle.setup.specs.Setups.{routing_address};
ghost use Rattle.embedded.specs.Embedded.{embedded};
ghost use Rattle.routing.specs.Interface.{box_of, first_box};
ghost use Rattle.routing.specs.Steps.{dials, target1, before, exhausted, tail, callee4, received4};
ghost use Rattle.routing.specs.Routing.{roomy, outcome, outcome_by, answer, answer_by, source_list_after, target_list_after};
ghost use Rattle.routing.specs.Places.{KeptBeside, first_listed, suffix_begins, begins, delivered, advanced, settled_in};

use plan::{Plan, Region, Seen, Subscriber};
use refusal::Refusal;
use setup::{Dialled, Route, Setup};
use zone::Zone;

// The box that a call is routed to: a feature box with its type and address; a line, trunk or resource box with its number and address; the error box with the address that leads to it.
#[derive(Clone, Copy, PartialEq, Eq, Debug)]
pub enum Callee {
    Feature(u8, u32),
    Line(u16, u32),
    Trunk(u16, u32),
    Resource(u16, u32),
    Error(u32),
}

// The callee box, the setup that it receives and how many types are left in it.
#[derive(Clone, Copy)]
pub struct Routed {
    pub callee: Callee,
    pub setup: Setup,
    pub left: u8,
}

// ---- step 1: extract the target

// The address that a string embeds, or 0.
fn embedded_target(d: Dialled) -> u32
    ensures { result ≡ dials (embedded (string_of d)) }
{
    embedded::embedded_in(d.as_slice()).unwrap_or(0)
}

// The target after step 1.
#[tactic(auto, unfolding(crate::specs::Steps::target1))]
pub fn extracted(out: Setup) -> u32
    ensures { result ≡ target1 out }
{
    if out.target == 0 {
        embedded_target(out.dialled)
    } else {
        out.target
    }
}

// ---- the interface box

#[tactic(auto, unfolding(crate::specs::Interface::box_of))]
fn box_of(kind: u8, number: u16, address: u32) -> Callee
    ensures { result ≡ box_of kind number address }
{
    match kind {
        1 => Callee::Line(number, address),
        2 => Callee::Trunk(number, address),
        3 => Callee::Resource(number, address),
        _ => Callee::Error(address),
    }
}

// The look-up of the box that an address leads to, by the subscriber whom a plan shows for it: the kind and number of the first one listed. Nobody lists any.
fn look_up(holder: Subscriber) -> Option<(u8, u16)>
    ensures { result ≡ first_listed holder }
{
    if holder.count == 0 {
        None
    } else {
        Some((holder.kind, holder.boxes[0]))
    }
}

// The interface box of an address, or the error box.
fn interface_of(holder: Subscriber, address: u32) -> Callee
    ensures { result ≡ first_box holder address }
{
    let Some((kind, number)) = look_up(holder) else {
        return Callee::Error(address);
    };
    box_of(kind, number, address)
}

// ---- step 2: expand the route

// How much of a zone lies before its suffix after a type.
fn before(t: u8, zone: Zone) -> usize
    ensures { result ≡ before t (list_of zone) }
{
    match zone.as_slice().iter().position(|u| *u == t) {
        Some(place) => place + 1,
        None => 0,
    }
}

fn suffix_begins(placing: Option<u8>, zone: Zone) -> usize
    ensures { result ≡ suffix_begins placing (list_of zone) }
{
    match placing {
        None => 0,
        Some(t) => before(t, zone),
    }
}

// The place of the zone at which the expanded route begins.
fn begins(route: Route, placing: Option<u8>, list: Zone, zone: Zone) -> usize
    ensures { result ≡ begins route placing (list_of list) (list_of zone) }
{
    match route {
        Route::Whole => 0,
        Route::Suffix => suffix_begins(placing, zone),
        Route::Listed => zone.as_slice().len().saturating_sub(list.as_slice().len()),
    }
}

// The end part from one place of the first end types of a lent list.
fn end_part<'a>(from: usize, end: usize, list: &'a [u8]) -> &'a [u8]
    ensures { result.now ≡ drop from (take end list.now) }
{
    let to = end.min(list.len());
    &list[from.min(to)..to]
}

// ---- step 3: advance the region

// Whether the source region is exhausted: nothing of its zone is left from this place on.
fn exhausted(region: Region, from: usize, zone: Zone) -> bool
    ensures { result ≡ exhausted region (drop from (list_of zone)) }
{
    match region {
        Region::Source => zone.as_slice().len() <= from,
        Region::Target => false,
    }
}

// ---- step 4: choose the callee box

// The box under every plan in which the target's subscriber is this one.
fn box_chosen(holder: Subscriber, source: u32, target: u32, region: Region, rest: &[u8]) -> Callee
    ensures { (p : Plan) → holder_at p target ≡ holder → result ≡ callee4 p source target region rest.now }
{
    if rest.is_empty() {
        return interface_of(holder, target);
    }
    Callee::Feature(rest[0], setup::routing(region, source, target))
}

fn tail<'a>(rest: &'a [u8]) -> &'a [u8]
    ensures { result.now ≡ tail rest.now }
{
    &rest[rest.len().min(1)..]
}

fn received(out: Setup, target: u32, region: Region, outer: Option<u32>, rest: &[u8]) -> Setup
    requires { length rest.now ≤ 32 }
    ensures { result ≡ received4 out target region outer rest.now }
{
    let dialled = setup::kept_string(out.dialled);
    let list = setup::listed(tail(rest));
    Setup {
        region,
        source: out.source,
        dialled,
        target,
        route: Route::Listed,
        list,
        placing: None,
        outer,
    }
}

fn deliver(
    holder: Subscriber,
    out: Setup,
    target: u32,
    region: Region,
    outer: Option<u32>,
    rest: &[u8],
) -> Routed
    requires { length rest.now ≤ 32 }
    ensures { (p : Plan) → holder_at p target ≡ holder → result ≡ delivered p out target region outer rest.now }
{
    Routed {
        callee: box_chosen(holder, out.source, target, region, rest),
        setup: received(out, target, region, outer, rest),
        left: tail(rest).len() as u8,
    }
}

// Steps 2 to 4 on the lists, which hold the two zones.
fn hand_over<'a>(
    holder: Subscriber,
    out: Setup,
    target: u32,
    source_zone: Zone,
    target_zone: Zone,
    source_list: &'a [u8],
    target_list: &'a [u8],
) -> Routed
    requires { (take (length (list_of source_zone)) source_list.now ≡ list_of source_zone) × (take (length (list_of target_zone)) target_list.now ≡ list_of target_zone) × (length (list_of source_zone) ≤ 32) × (length (list_of target_zone) ≤ 32) }
    ensures { (p : Plan) → holder_at p target ≡ holder → result ≡ advanced p out target (drop (begins out.route out.placing (list_of out.list) (list_of (of_region out.region source_zone target_zone))) (list_of (of_region out.region source_zone target_zone))) (list_of target_zone) }
{
    let zone = out.region.of(source_zone, target_zone);
    let from = begins(out.route, out.placing, out.list, zone);
    if exhausted(out.region, from, zone) {
        let rest = end_part(0, target_zone.as_slice().len(), target_list);
        deliver(holder, out, target, Region::Target, None, rest)
    } else {
        let list = out.region.of(source_list, target_list);
        let rest = end_part(from, zone.as_slice().len(), list);
        deliver(holder, out, target, out.region, out.outer, rest)
    }
}

// ---- the operation

#[tactic(auto, unfolding(crate::specs::Routing::roomy))]
fn roomy(source_room: usize, target_room: usize) -> bool
    ensures { result ≡ roomy source_room target_room }
{
    32 <= source_room && 32 <= target_room
}

// The first refusal that applies, for a caller that has built both zones; `later` is the caller's own, which comes last.
fn settled(
    kept: bool,
    reversible: u32,
    out: Setup,
    later: Result<(), Refusal>,
    source_zone: Zone,
    target_zone: Zone,
    source_room: usize,
    target_room: usize,
) -> Result<(), Refusal>
    ensures { result ≡ settled_in kept (list_of (of_region out.region source_zone target_zone)) reversible out later source_room target_room }
{
    let zone = out.region.of(source_zone, target_zone);
    refusal::first_unmet(&[
        (kept, Refusal::RuleBroken(0)),
        (
            faults::well_formed_in(zone, reversible, out),
            Refusal::Malformed,
        ),
        (roomy(source_room, target_room), Refusal::ListTooShort),
    ])?;
    later
}

// Writes a zone to the front of a lent list.
fn put(zone: Zone, list: &mut [u8])
    requires { 32 ≤ length list.old }
    ensures { list.new ≡ sets list.old 0 (list_of zone) }
{
    let types = zone.as_slice();
    list[..types.len()].copy_from_slice(types);
}

// Routing by what a plan shows of the setup's source and of its target after step 1, and by a verdict on the plan: for a caller that has read these two subscribers, and not the whole plan. The
// answer is that of every plan that shows this; of what no plan shows it is only promised that a refusal leaves both lists as they were. `kept` says whether the plan is sound: it goes beside `v`,
// as 23 stands in the same table as the others. The two lists go one by one, as C lends them (`dfc_route`), each of its own length (18).
pub fn route_seen(
    kept: bool,
    v: Seen,
    out: Setup,
    later: Result<(), Refusal>,
    source_list: &mut [u8],
    target_list: &mut [u8],
) -> Result<Routed, Refusal>
    ensures value { (p : Plan) → seen p out.source (target1 out) ≡ v
        → (result ≡ answer_by kept p out later (length source_list.old) (length target_list.old))
        × (source_list.new ≡ source_list_after p out (outcome_by kept p out later (length source_list.old) (length target_list.old)) source_list.old)
        × (target_list.new ≡ target_list_after p out (outcome_by kept p out later (length source_list.old) (length target_list.old)) target_list.old) }
    ensures unchanged { KeptBeside result source_list.old source_list.new × KeptBeside result target_list.old target_list.new }
{
    let source_order = v.source_order;
    let target_order = v.target_order;
    let source_zone = zone::zone_of(source_order, v.first.source);
    let target_zone = zone::zone_of(target_order, v.second.target);
    settled(
        kept,
        v.types.reversible,
        out,
        later,
        source_zone,
        target_zone,
        source_list.len(),
        target_list.len(),
    )?;
    put(source_zone, source_list);
    put(target_zone, target_list);
    let target = extracted(out);
    Ok(hand_over(
        v.second,
        out,
        target,
        source_zone,
        target_zone,
        source_list,
        target_list,
    ))
}

// Routing, after the test: `kept` says whether the plan is sound.
fn route_tested(
    kept: bool,
    plan: Plan,
    out: Setup,
    later: Result<(), Refusal>,
    source_list: &mut [u8],
    target_list: &mut [u8],
) -> Result<Routed, Refusal>
    ensures { (result ≡ answer_by kept plan out later (length source_list.old) (length target_list.old))
        × (source_list.new ≡ source_list_after plan out (outcome_by kept plan out later (length source_list.old) (length target_list.old)) source_list.old)
        × (target_list.new ≡ target_list_after plan out (outcome_by kept plan out later (length source_list.old) (length target_list.old)) target_list.old) }
{
    let v = plan::look(plan, out.source, extracted(out));
    route_seen(kept, v, out, later, source_list, target_list)
}

// The callee box of any setup under any plan, the setup received and how many types are left, with the zones of source and target in the two lent lists; or 23, 5, 18 and then the caller's own
// refusal, with nothing written. It is for a caller that has more to settle before a call can be placed.
pub fn route_unless(
    plan: Plan,
    out: Setup,
    later: Result<(), Refusal>,
    source_list: &mut [u8],
    target_list: &mut [u8],
) -> Result<Routed, Refusal>
    ensures { (result ≡ answer plan out later (length source_list.old) (length target_list.old))
        × (source_list.new ≡ source_list_after plan out (outcome plan out later (length source_list.old) (length target_list.old)) source_list.old)
        × (target_list.new ≡ target_list_after plan out (outcome plan out later (length source_list.old) (length target_list.old)) target_list.old) }
{
    let kept = soundness::sound(plan);
    route_tested(kept, plan, out, later, source_list, target_list)
}

// The same, for a caller that has nothing more to settle: 23, 5, 18.
pub fn route(
    plan: Plan,
    out: Setup,
    source_list: &mut [u8],
    target_list: &mut [u8],
) -> Result<Routed, Refusal>
    ensures { (result ≡ answer plan out (Ok tt) (length source_list.old) (length target_list.old))
        × (source_list.new ≡ source_list_after plan out (outcome plan out (Ok tt) (length source_list.old) (length target_list.old)) source_list.old)
        × (target_list.new ≡ target_list_after plan out (outcome plan out (Ok tt) (length source_list.old) (length target_list.old)) target_list.old) }
{
    route_unless(plan, out, Ok(()), source_list, target_list)
}
