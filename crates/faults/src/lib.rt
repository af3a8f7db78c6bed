// Which fault a setup has (01 'Setups', refusal 5): the tests of a well-formed setup. What each says is in the crate `setup`.
#![tactic(auto)]

ghost use Rattle.std.specs.Prelude.{◌≡◌};
ghost use Rattle.zone.specs.Order.{held, list_of};
ghost use Rattle.zone.specs.Answer.{zone_at};
ghost use Rattle.setup.specs.Setups.{outer_legal, in_range, list_fits, route_fits, unplaced, placed_by, placing_fits, outer_absent, outer_given, outer_fits, fault_in, zone_asked, fault, faultless, well_formed};

use plan::{Plan, Region};
use setup::{Fault, Route, Setup};
use zone::Zone;

fn outer_legal(outer: Option<u32>) -> bool
    ensures { result ≡ outer_legal outer }
{
    outer.is_none_or(|a| plan::legal(a))
}

#[tactic(auto, unfolding(setup::specs::Setups::in_range))]
fn in_range(s: Setup) -> bool
    ensures { result ≡ in_range s }
{
    plan::legal(s.source)
        && plan::legal(s.target)
        && outer_legal(s.outer)
        && setup::legal_dialled(s.dialled)
}

// Whether a list is an end part of a zone.
fn list_fits(zone: Zone, list: Zone) -> bool
    ensures { result ≡ list_fits (list_of zone) list }
{
    list.len <= 32 && zone.as_slice().ends_with(list.as_slice())
}

// Whether the route is no list, or its list is an end part of the zone.
fn route_fits(zone: Zone, route: Route, list: Zone) -> bool
    ensures { result ≡ route_fits route (list_fits (list_of zone) list) }
{
    route != Route::Listed || list_fits(zone, list)
}

fn reversible_placing(reversible: u32, placing: Option<u8>) -> bool
    ensures { result ≡ placed_by reversible placing }
{
    placing.is_some_and(|t| typeset::has(reversible, u32::from(t)))
}

fn placing_fits(reversible: u32, route: Route, placing: Option<u8>) -> bool
    ensures { result ≡ placing_fits reversible route placing }
{
    match route {
        Route::Suffix => reversible_placing(reversible, placing),
        Route::Whole | Route::Listed => placing.is_none(),
    }
}

fn outer_fits(region: Region, outer: Option<u32>) -> bool
    ensures { result ≡ outer_fits region outer }
{
    match region {
        Region::Source => outer != Some(0),
        Region::Target => outer.is_none(),
    }
}

// The first fault of a setup, for a caller that has the zone of its routing address; total for any zone.
#[tactic(auto, unfolding(setup::specs::Setups::fault_in))]
pub fn fault_in(zone: Zone, reversible: u32, s: Setup) -> Option<Fault>
    ensures { result ≡ fault_in (list_of zone) reversible s }
{
    if !in_range(s) {
        return Some(Fault::BadAddressOrString);
    }
    if setup::routing_address(s) == 0 {
        return Some(Fault::NoRoutingAddress);
    }
    if !route_fits(zone, s.route, s.list) {
        return Some(Fault::NoEndPart);
    }
    if !placing_fits(reversible, s.route, s.placing) {
        return Some(Fault::WrongPlacing);
    }
    if !outer_fits(s.region, s.outer) {
        return Some(Fault::WrongOuter);
    }
    None
}

// The zone that a route's list is held against; only a list needs one.
fn zone_asked(plan: Plan, region: Region, address: u32, route: Route) -> Zone
    ensures { result ≡ held (zone_asked route (zone_at plan region address)) }
{
    match route {
        Route::Whole | Route::Suffix => Zone::empty(),
        Route::Listed => zone::zone_at(plan, region, address),
    }
}

// The first fault of a setup, for a caller that has tested the plan; total in any plan, as zone_at is.
pub fn fault_of(plan: Plan, s: Setup) -> Option<Fault>
    ensures { result ≡ fault plan s }
{
    let zone = zone_asked(plan, s.region, setup::routing_address(s), s.route);
    fault_in(zone, plan.types.reversible, s)
}

// Whether a setup is well formed, for a caller that has the zone of its routing address; total for any zone.
pub fn well_formed_in(zone: Zone, reversible: u32, s: Setup) -> bool
    ensures { result ≡ faultless (fault_in (list_of zone) reversible s) }
{
    fault_in(zone, reversible, s).is_none()
}

// Whether a setup is well formed, for a caller that has tested the plan; total in any plan.
pub fn well_formed(plan: Plan, s: Setup) -> bool
    ensures { result ≡ well_formed plan s }
{
    fault_of(plan, s).is_none()
}
