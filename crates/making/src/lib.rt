// The three ways to make a setup: new, continued and reversed.
#![tactic(auto)]

ghost use Rattle.std.specs.Prelude.{◌≡◌, ◌&&◌, cond, ℕ, Some, None};
ghost use Rattle.typeset.specs.Sets.{has};
ghost use Rattle.plan.specs.declared.Plan.{Plan};
ghost use Rattle.plan.specs.Parts.{legal};
ghost use Rattle.plan.specs.Sound.{sound};
ghost use Rattle.plan.specs.Find.{holder_at, seen};
ghost use Rattle.zone.specs.Order.{held};
ghost use Rattle.refusal.specs.Numbers.{number_said, place_said};
ghost use Rattle.zone.specs.Answer.{zone_at};
ghost use Rattle.setup.specs.Setups.{routing_address, well_formed};
ghost use Rattle.making.specs.Making.{box_address, box_type, type_exists, makes_new, makes_more, address_held, is_list, not_own, new_outcome_by, continued_outcome_by, reversed_outcome_by, new_answer_by, new_answer, continued_answer_by, continued_answer, reversed_answer_by, reversed_answer};
ghost use Rattle.making.specs.Rows.{first_of, new_rows, continued_rows, reversed_rows};

use plan::{Plan, Region, Seen, Subscriber};
use refusal::Refusal;
use setup::{Route, Setup};
use zone::Zone;

// The place of 23 for a plan in memory.
const IN_MEMORY: usize = 0;

// The box that makes a setup: a feature box with its type and address, a line or trunk box with the source it names, a resource box, the error box.
#[derive(Clone, Copy, PartialEq, Eq, Debug)]
pub enum Maker {
    Feature(u8, u32),
    Line(u32),
    Trunk(u32),
    Resource,
    Error,
}

// ---- the box that makes a setup

// The address that the box is at, or names as its source; 0 for a box that makes no setup.
pub fn box_address(maker: Maker) -> u32
    ensures { result ≡ box_address maker }
{
    match maker {
        Maker::Feature(_, a) | Maker::Line(a) | Maker::Trunk(a) => a,
        Maker::Resource | Maker::Error => 0,
    }
}

// The type of a feature box; 0 for the others, which 2 refuses before a type is asked for.
fn box_type(maker: Maker) -> u8
    ensures { result ≡ box_type maker }
{
    match maker {
        Maker::Feature(t, _) => t,
        _ => 0,
    }
}

fn type_exists(existing: u32, maker: Maker) -> bool
    ensures { (p : Plan) → p.types.existing ≡ existing → result ≡ type_exists p maker }
{
    match maker {
        Maker::Feature(t, _) => typeset::has(existing, u32::from(t)),
        _ => true,
    }
}

fn makes_new(maker: Maker) -> bool
    ensures { result ≡ makes_new maker }
{
    !matches!(maker, Maker::Resource | Maker::Error)
}

fn makes_more(maker: Maker) -> bool
    ensures { result ≡ makes_more maker }
{
    matches!(maker, Maker::Feature(_, _))
}

// 3, by the subscriber that a plan shows of the box's address: an address of 0 is shown where nobody has it, and nobody is of no kind.
fn address_held(holder: Subscriber, maker: Maker) -> bool
    ensures { (p : Plan) → holder_at p (box_address maker) ≡ holder → result ≡ address_held p maker }
{
    match maker {
        Maker::Feature(_, _) => holder.address != 0,
        Maker::Line(_) => holder.kind == 1,
        Maker::Trunk(_) => holder.kind == 2,
        Maker::Resource | Maker::Error => true,
    }
}

// ---- what is refused

// Whether a setup can be continued: it is well formed, and its route is a list.
fn continuable(zone: Zone, reversible: u32, s: Setup) -> bool
    ensures { (p : Plan) → zone ≡ held (zone_at p s.region (routing_address s)) → p.types.reversible ≡ reversible → result ≡ (well_formed p s && is_list s.route) }
{
    faults::well_formed_in(zone, reversible, s) && s.route == Route::Listed
}

// 8: whether an argument for the routing address of the region is not the box's own address.
#[tactic(auto, unfolding(crate::specs::Making::not_own))]
fn not_own(region: Region, at: u32, source_arg: u32, target_arg: u32) -> bool
    ensures { result ≡ not_own region at source_arg target_arg }
{
    let given = setup::routing(region, source_arg, target_arg);
    given == 0 || given != at
}

// 9: whether both address arguments are in range.
fn both_legal(source_arg: u32, target_arg: u32) -> bool
    ensures { result ≡ (legal source_arg && legal target_arg) }
{
    plan::legal(source_arg) && plan::legal(target_arg)
}

fn new_outcome(
    kept: bool,
    existing: u32,
    holder: Subscriber,
    maker: Maker,
    string: &[u8],
    target_arg: u32,
) -> Result<(), Refusal>
    ensures { (p : Plan) → p.types.existing ≡ existing → holder_at p (box_address maker) ≡ holder → result ≡ new_outcome_by kept p maker string.now target_arg }
{
    refusal::first_unmet(&[
        (kept, Refusal::RuleBroken(IN_MEMORY)),
        (type_exists(existing, maker), Refusal::NoSuchType),
        (makes_new(maker), Refusal::NotForThisBox),
        (address_held(holder, maker), Refusal::WrongAddress),
        (setup::legal_string(string), Refusal::BadString),
        (plan::legal(target_arg), Refusal::AddressTooLarge),
    ])
}

fn continued_outcome(
    kept: bool,
    v: Seen,
    maker: Maker,
    s: Setup,
    source_arg: u32,
    string: &[u8],
    target_arg: u32,
) -> Result<(), Refusal>
    ensures { (p : Plan) → seen p (box_address maker) (routing_address s) ≡ v → result ≡ continued_outcome_by kept p maker s source_arg string.now target_arg }
{
    let at = box_address(maker);
    let zone = zone::zone_shown(s.region, v, v.second);
    refusal::first_unmet(&[
        (kept, Refusal::RuleBroken(IN_MEMORY)),
        (type_exists(v.types.existing, maker), Refusal::NoSuchType),
        (makes_more(maker), Refusal::NotForThisBox),
        (address_held(v.first, maker), Refusal::WrongAddress),
        (continuable(zone, v.types.reversible, s), Refusal::Malformed),
        (setup::routing_address(s) == at, Refusal::NotRoutedHere),
        (setup::legal_string(string), Refusal::BadString),
        (
            not_own(s.region, at, source_arg, target_arg),
            Refusal::OwnAddress,
        ),
        (both_legal(source_arg, target_arg), Refusal::AddressTooLarge),
    ])
}

fn reversible_type(reversible: u32, maker: Maker) -> bool
    ensures { result ≡ has (box_type maker) reversible }
{
    typeset::has(reversible, u32::from(box_type(maker)))
}

fn reversed_outcome(
    kept: bool,
    v: Seen,
    maker: Maker,
    s: Setup,
    source_arg: u32,
    string: &[u8],
    target_arg: u32,
) -> Result<(), Refusal>
    ensures { (p : Plan) → seen p (box_address maker) (routing_address s) ≡ v → result ≡ reversed_outcome_by kept p maker s source_arg string.now target_arg }
{
    let at = box_address(maker);
    let back = made::turned(s.region);
    let zone = zone::zone_shown(s.region, v, v.second);
    refusal::first_unmet(&[
        (kept, Refusal::RuleBroken(IN_MEMORY)),
        (type_exists(v.types.existing, maker), Refusal::NoSuchType),
        (makes_more(maker), Refusal::NotForThisBox),
        (address_held(v.first, maker), Refusal::WrongAddress),
        (
            reversible_type(v.types.reversible, maker),
            Refusal::NotReversible,
        ),
        (
            faults::well_formed_in(zone, v.types.reversible, s),
            Refusal::Malformed,
        ),
        (setup::legal_string(string), Refusal::BadString),
        (
            not_own(back, at, source_arg, target_arg),
            Refusal::OwnAddress,
        ),
        (both_legal(source_arg, target_arg), Refusal::AddressTooLarge),
    ])
}

// ---- the three ways to make a setup

// `kept` goes beside `v` in three functions that docs/EXACT.md names: 23 stands in the same table as the others.
// A new setup by what a plan shows, for a caller that has not built the plan: `v` shows the box's address as the first (the second is not looked at), and `kept` says whether the plan is
// sound. Where no plan shows `v`, nothing is said of the answer.
pub fn new_seen(
    kept: bool,
    v: Seen,
    maker: Maker,
    string: &[u8],
    target_arg: u32,
) -> Result<Setup, Refusal>
    ensures { (p : Plan) (second : ℕ) → seen p (box_address maker) second ≡ v → result ≡ new_answer_by kept p maker string.now target_arg }
{
    new_outcome(kept, v.types.existing, v.first, maker, string, target_arg)?;
    Ok(made::new_of(box_address(maker), string, target_arg))
}

// A new setup, after the test: `kept` says whether the plan is sound.
fn new_tested(
    kept: bool,
    plan: Plan,
    maker: Maker,
    string: &[u8],
    target_arg: u32,
) -> Result<Setup, Refusal>
    ensures { result ≡ new_answer_by kept plan maker string.now target_arg }
{
    let v = plan::look(plan, box_address(maker), 0);
    new_seen(kept, v, maker, string, target_arg)
}

// A new setup (manual 5.4), for any plan, maker, bytes and number.
pub fn new_setup(plan: Plan, maker: Maker, string: &[u8], target_arg: u32) -> Result<Setup, Refusal>
    ensures value { result ≡ new_answer plan maker string.now target_arg }
    ensures numbered { (number_said result ≡ first_of (new_rows plan maker string.now target_arg)) × (place_said result ≡ cond (sound plan) None (Some 0)) }
{
    let kept = soundness::sound(plan);
    new_tested(kept, plan, maker, string, target_arg)
}

// A setup continued by what a plan shows, for a caller that has not built the plan: `v` shows the box's address as the first and the routing address of `s` as the second, and `kept` says whether
// the plan is sound. Where no plan shows `v`, nothing is said of the answer.
pub fn continued_seen(
    kept: bool,
    v: Seen,
    maker: Maker,
    s: Setup,
    source_arg: u32,
    string: &[u8],
    target_arg: u32,
) -> Result<Setup, Refusal>
    ensures { (p : Plan) → seen p (box_address maker) (routing_address s) ≡ v → result ≡ continued_answer_by kept p maker s source_arg string.now target_arg }
{
    continued_outcome(kept, v, maker, s, source_arg, string, target_arg)?;
    Ok(made::continued_of(box_address(maker), s, source_arg, string, target_arg))
}

// A setup continued, after the test.
fn continued_tested(
    kept: bool,
    plan: Plan,
    maker: Maker,
    s: Setup,
    source_arg: u32,
    string: &[u8],
    target_arg: u32,
) -> Result<Setup, Refusal>
    ensures { result ≡ continued_answer_by kept plan maker s source_arg string.now target_arg }
{
    let v = plan::look(plan, box_address(maker), setup::routing_address(s));
    continued_seen(kept, v, maker, s, source_arg, string, target_arg)
}

// A setup continued (manual 5.5), for any plan, maker, stored setup and arguments.
pub fn continued_setup(
    plan: Plan,
    maker: Maker,
    s: Setup,
    source_arg: u32,
    string: &[u8],
    target_arg: u32,
) -> Result<Setup, Refusal>
    ensures value { result ≡ continued_answer plan maker s source_arg string.now target_arg }
    ensures numbered { (number_said result ≡ first_of (continued_rows plan maker s source_arg string.now target_arg)) × (place_said result ≡ cond (sound plan) None (Some 0)) }
{
    let kept = soundness::sound(plan);
    continued_tested(kept, plan, maker, s, source_arg, string, target_arg)
}

// Continued and reversed stay two, as C and docs/PROMISES name them: their refusals stand in two tables.
// A setup reversed by what a plan shows, for a caller that has not built the plan: `v` shows the box's address as the first and the routing address of `s` as the second, and `kept` says whether
// the plan is sound. Where no plan shows `v`, nothing is said of the answer.
pub fn reversed_seen(
    kept: bool,
    v: Seen,
    maker: Maker,
    s: Setup,
    source_arg: u32,
    string: &[u8],
    target_arg: u32,
) -> Result<Setup, Refusal>
    ensures { (p : Plan) → seen p (box_address maker) (routing_address s) ≡ v → result ≡ reversed_answer_by kept p maker s source_arg string.now target_arg }
{
    reversed_outcome(kept, v, maker, s, source_arg, string, target_arg)?;
    Ok(made::reversed_of(
        box_type(maker),
        box_address(maker),
        s,
        source_arg,
        string,
        target_arg,
    ))
}

// A setup reversed, after the test.
fn reversed_tested(
    kept: bool,
    plan: Plan,
    maker: Maker,
    s: Setup,
    source_arg: u32,
    string: &[u8],
    target_arg: u32,
) -> Result<Setup, Refusal>
    ensures { result ≡ reversed_answer_by kept plan maker s source_arg string.now target_arg }
{
    let v = plan::look(plan, box_address(maker), setup::routing_address(s));
    reversed_seen(kept, v, maker, s, source_arg, string, target_arg)
}

// A setup reversed (manual 5.6), for any plan, maker, setup once sent and arguments.
pub fn reversed_setup(
    plan: Plan,
    maker: Maker,
    s: Setup,
    source_arg: u32,
    string: &[u8],
    target_arg: u32,
) -> Result<Setup, Refusal>
    ensures value { result ≡ reversed_answer plan maker s source_arg string.now target_arg }
    ensures numbered { (number_said result ≡ first_of (reversed_rows plan maker s source_arg string.now target_arg)) × (place_said result ≡ cond (sound plan) None (Some 0)) }
{
    let kept = soundness::sound(plan);
    reversed_tested(kept, plan, maker, s, source_arg, string, target_arg)
}
