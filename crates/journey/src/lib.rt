// The journey of a setup when no box changes anything, and the desk's listing of it.
#![tactic(auto)]

ghost use Rattle.std.specs.Prelude.{◌≡◌, List, [], ◌∷◌, ◌++◌, true, ◌+◌, ◌≤◌, length, Ok, IfOk};
ghost use Rattle.std.proofs.lemmas.List.Edits.{sets};
ghost use Rattle.plan.specs.Sound.{sound};
ghost use Rattle.refusal.specs.Numbers.{number_of};
ghost use Rattle.setup.specs.Setups.{well_formed};
ghost use Rattle.text.specs.Decimal.{decimal};
ghost use Rattle.routing.specs.Interface.{address_of};
ghost use Rattle.routing.specs.Routing.{answer};
ghost use Rattle.journey.specs.Hops.{journey};
ghost use Rattle.journey.specs.Listing.{kind_word, number_in, head_line, spaced, line, lines, listing};
ghost use Rattle.journey.specs.Desk.{space_in, refused_text, told, desk_text};
ghost use Rattle.journey.specs.Trips.{sent_on, hopped, hop_text};

use making::Maker;
use plan::Plan;
use refusal::Refusal;
use routing::{Callee, Routed};
use setup::Setup;

// ---- text in a lent room: each of these says where the next one begins. Room and place go apart, and no `Display`: the promise says each byte of the lent room, past its end too.

// Stores bytes.
fn put_bytes(bytes: &[u8], at: usize, room: &mut [u8]) -> usize
    requires { (length bytes.now ≤ 100) × (at ≤ 100000) }
    ensures { (result ≡ at + length bytes.now) × (room.new ≡ sets room.old at bytes.now) }
{
    text::put(bytes, at, room);
    at + bytes.len()
}

// Stores a number.
fn put_number(n: u32, at: usize, room: &mut [u8]) -> usize
    requires { at ≤ 100000 }
    ensures { (result ≡ at + length (decimal n)) × (room.new ≡ sets room.old at (decimal n)) }
{
    put_bytes(text::decimal(n).as_slice(), at, room)
}

// Stores a number and a space.
fn put_field(n: u32, at: usize, room: &mut [u8]) -> usize
    requires { at ≤ 50000 }
    ensures { (result ≡ at + length (spaced (decimal n))) × (room.new ≡ sets room.old at (spaced (decimal n))) }
{
    let next = put_number(n, at, room);
    put_bytes(b" ", next, room)
}

// Stores the word for the kind of a box, and a space.
fn put_kind(callee: Callee, at: usize, room: &mut [u8]) -> usize
    requires { at ≤ 50000 }
    ensures { (result ≡ at + length (spaced (kind_word callee))) × (room.new ≡ sets room.old at (spaced (kind_word callee))) }
{
    match callee {
        Callee::Feature(_, _) => put_bytes(b"feature ", at, room),
        Callee::Line(_, _) => put_bytes(b"line ", at, room),
        Callee::Trunk(_, _) => put_bytes(b"trunk ", at, room),
        Callee::Resource(_, _) => put_bytes(b"resource ", at, room),
        Callee::Error(_) => put_bytes(b"error ", at, room),
    }
}

// The type or number of a box.
fn number_in(callee: Callee) -> u32
    ensures { result ≡ number_in callee }
{
    match callee {
        Callee::Feature(t, _) => t.into(),
        Callee::Line(n, _) | Callee::Trunk(n, _) | Callee::Resource(n, _) => n.into(),
        Callee::Error(_) => 0,
    }
}

fn address_of(callee: Callee) -> u32
    ensures { result ≡ address_of callee }
{
    match callee {
        Callee::Feature(_, a)
        | Callee::Line(_, a)
        | Callee::Trunk(_, a)
        | Callee::Resource(_, a)
        | Callee::Error(a) => a,
    }
}

// Stores the line of one hop.
fn put_line(hop: u32, callee: Callee, left: u32, at: usize, room: &mut [u8]) -> usize
    requires { at ≤ 10000 }
    ensures { (result ≡ at + length (line hop callee left)) × (room.new ≡ sets room.old at (line hop callee left)) }
{
    let kind = put_field(hop, at, room);
    let number = put_kind(callee, kind, room);
    let address = put_field(number_in(callee), number, room);
    let rest = put_field(address_of(callee), address, room);
    let end = put_number(left, rest, room);
    put_bytes(b"\n", end, room)
}

// ---- the journey

// What routing answers, with lists of its own.
fn routed(plan: Plan, s: Setup) -> Result<Routed, Refusal>
    ensures { result ≡ answer plan s (Ok tt) 32 32 }
{
    let mut source_list = [0u8; 32];
    let mut target_list = [0u8; 32];
    routing::route(plan, s, &mut source_list, &mut target_list)
}

// What a box sends on when it changes nothing; a box that is no feature box sends nothing.
fn sent_on(plan: Plan, callee: Callee, received: Setup) -> Option<Setup>
    ensures { result ≡ sent_on plan callee received }
{
    match callee {
        Callee::Feature(t, a) => {
            making::continued_setup(plan, Maker::Feature(t, a), received, 0, b"", 0).ok()
        }
        _ => None,
    }
}

// A journey on its way: the setup that is routed next, if there is one, and where the next line begins.
#[derive(Clone, Copy)]
struct Trip {
    next: Option<Setup>,
    at: usize,
}

// One hop, with its line.
fn one_hop(plan: Plan, trip: Trip, hop: u32, room: &mut [u8]) -> Trip
    requires { trip.at ≤ 10000 }
    ensures { (result ≡ hopped plan trip hop) × (room.new ≡ sets room.old trip.at (hop_text plan trip hop)) }
{
    let Some(setup) = trip.next else {
        return trip;
    };
    match routed(plan, setup) {
        Ok(r) => Trip {
            next: sent_on(plan, r.callee, r.setup),
            at: put_line(hop, r.callee, r.left.into(), trip.at, room),
        },
        Err(_) => Trip {
            next: None,
            at: trip.at,
        },
    }
}

// The lines of a journey. (What is asked stays one clause, here and in the two below: both facts are of one setup.)
fn put_hops(plan: Plan, first: Setup, at: usize, room: &mut [u8]) -> usize
    requires { (sound plan ≡ true) × (well_formed plan first ≡ true) × (at ≤ 100) }
    ensures { (result ≡ at + length (lines 1 (journey plan first))) × (room.new ≡ sets room.old at (lines 1 (journey plan first))) }
{
    let mut trip = Trip {
        next: Some(first),
        at,
    };
    for hop in 1u32..66 {
        trip = one_hop(plan, trip, hop, room);
    }
    trip.at
}

// The whole listing, from the first place of a lent room.
fn put_listing(plan: Plan, first: Setup, room: &mut [u8]) -> usize
    requires { (sound plan ≡ true) × (well_formed plan first ≡ true) }
    ensures { (result ≡ length (listing (journey plan first))) × (room.new ≡ sets room.old 0 (listing (journey plan first))) }
{
    let next = put_bytes(b"hop box number address left\n", 0, room);
    put_hops(plan, first, next, room)
}

// ---- the desk

fn put_refused(refusal: Refusal, room: &mut [u8]) -> usize
    ensures { (result ≡ length (refused_text (number_of refusal))) × (room.new ≡ sets room.old 0 (refused_text (number_of refusal))) }
{
    let next = put_bytes(b"refused ", 0, room);
    let end = put_number(refusal.number().into(), next, room);
    put_bytes(b"\n", end, room)
}

// The listing of a setup that was made, or the refusal.
fn put_told(plan: Plan, answer: Result<Setup, Refusal>, room: &mut [u8]) -> usize
    requires { IfOk answer (λ s. (sound plan ≡ true) × (well_formed plan s ≡ true)) }
    ensures { (result ≡ length (told plan answer)) × (room.new ≡ sets room.old 0 (told plan answer)) }
{
    match answer {
        Ok(first) => put_listing(plan, first, room),
        Err(r) => put_refused(r, room),
    }
}

// The place of the first space of a line; its length where there is none.
fn space_in(line: &[u8]) -> usize
    ensures { result ≡ space_in line.now }
{
    line.iter().position(|c| *c == b' ').unwrap_or(line.len())
}

// What the desk answers to any line under any plan, stored from the first place of a lent room as far as it fits; and how long it is.
pub fn desk(plan: Plan, line: &[u8], room: &mut [u8]) -> usize
    ensures { (result ≡ length (desk_text plan line.now)) × (room.new ≡ sets room.old 0 (desk_text plan line.now)) }
{
    let space = space_in(line);
    if line.len() <= space {
        return put_refused(Refusal::WrongAddress, room);
    }
    match embedded::written(&line[..space]) {
        None => put_refused(Refusal::WrongAddress, room),
        Some(a) => {
            let string = &line[space + 1..];
            let made = making::new_setup(plan, Maker::Line(a), string, 0);
            put_told(plan, made, room)
        }
    }
}
