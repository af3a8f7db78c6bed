// The setups that boxes make: new, continued, reversed (manual 5.4 to 5.6). Who may make one is tested in `making`. The arguments go one by one, as C gives them (`dfc_continued`), and 0 is one that is not given.
#![tactic(auto)]

ghost use Rattle.std.specs.Prelude.{◌≡◌, take};
ghost use Rattle.setup.specs.Dialling.{dialled, string_of};
ghost use Rattle.made.specs.Made.{or_kept, string_or, outer_for, new_setup, further, continued_setup, turned, reversed_setup};

use plan::Region;
use setup::{Dialled, Route, Setup};
use zone::Zone;

fn or_kept(argument: u32, kept: u32) -> u32
    ensures { result ≡ or_kept argument kept }
{
    if argument == 0 { kept } else { argument }
}

// A string that is not empty, or else the one that is kept.
fn string_or(string: &[u8], kept: Dialled) -> Dialled
    ensures { result ≡ dialled (string_or (take 32 string.now) (string_of kept)) }
{
    if string.is_empty() {
        setup::kept_string(kept)
    } else {
        setup::dial(string)
    }
}

// The region turns.
pub fn turned(region: Region) -> Region
    ensures { result ≡ turned region }
{
    match region {
        Region::Source => Region::Target,
        Region::Target => Region::Source,
    }
}

fn outer_for(region: Region, at: u32) -> Option<u32>
    ensures { result ≡ outer_for region at }
{
    match region {
        Region::Source => Some(at),
        Region::Target => None,
    }
}

// A new setup (manual 5.4), by its source.
#[tactic(auto, unfolding(crate::specs::Made::new_setup))]
pub fn new_of(source: u32, string: &[u8], target: u32) -> Setup
    ensures { result ≡ new_setup source (take 32 string.now) target }
{
    let dialled = setup::dial(string);
    let list = Zone::empty();
    Setup {
        region: Region::Source,
        source,
        dialled,
        target,
        route: Route::Whole,
        list,
        placing: None,
        outer: Some(source),
    }
}

// What a continued and a reversed setup share.
#[tactic(auto, unfolding(crate::specs::Made::further))]
fn further(
    region: Region,
    at: u32,
    source_arg: u32,
    target_arg: u32,
    kept: u32,
    dialled: Dialled,
    route: Route,
    list: Zone,
    placing: Option<u8>,
) -> Setup
    ensures { result ≡ further region at source_arg target_arg kept dialled route list placing }
{
    let given = setup::routing(region, source_arg, target_arg);
    let routed = or_kept(given, at);
    let opposite = or_kept(setup::other(region, source_arg, target_arg), kept);
    let mut made = Setup {
        region,
        source: region.of(routed, opposite),
        dialled,
        target: region.of(opposite, routed),
        route,
        list,
        placing,
        outer: None,
    };
    if given != 0 {
        let list = Zone::empty();
        made.route = Route::Whole;
        made.list = list;
        made.placing = None;
        made.outer = outer_for(region, at);
    }
    made
}

// A setup continued (manual 5.5) by a box with the address `at`.
#[tactic(auto, unfolding(crate::specs::Made::continued_setup))]
pub fn continued_of(at: u32, s: Setup, source_arg: u32, string: &[u8], target_arg: u32) -> Setup
    ensures { result ≡ continued_setup at s source_arg (take 32 string.now) target_arg }
{
    further(
        s.region,
        at,
        source_arg,
        target_arg,
        setup::other(s.region, s.source, s.target),
        string_or(string, s.dialled),
        Route::Listed,
        setup::kept_list(s.list),
        None,
    )
}

// A setup reversed (manual 5.6) by a box of type `kind` with the address `at`.
#[tactic(auto, unfolding(crate::specs::Made::reversed_setup))]
pub fn reversed_of(
    kind: u8,
    at: u32,
    s: Setup,
    source_arg: u32,
    string: &[u8],
    target_arg: u32,
) -> Setup
    ensures { result ≡ reversed_setup kind at s source_arg (take 32 string.now) target_arg }
{
    let back = turned(s.region);
    further(
        back,
        at,
        source_arg,
        target_arg,
        setup::routing(back, s.source, s.target),
        string_or(string, s.dialled),
        Route::Suffix,
        Zone::empty(),
        Some(kind),
    )
}
