// A setup as 110 bytes, for programs in other languages: tagged fields as in the plan file.
#![tactic(auto)]

ghost use Rattle.std.specs.Prelude.{◌≡◌, true, [], ◌∷◌, ◌++◌, ◌+◌, ◌%◌, ◌≤◌, ◌<◌, length, take, drop};
ghost use Rattle.std.proofs.lemmas.List.Edits.{sets};
ghost use Rattle.planbytes.specs.Numbers.{number};
ghost use Rattle.planbytes.specs.Format.{field};
ghost use Rattle.setupbytes.specs.Codec.{region_number, route_number, given, or_zero, head_of, head, setup_bytes, region_said, route_said, said, fields_in, same, setup_in};

use plan::Region;
use setup::{Dialled, Route, Setup};
use zone::Zone;

// ---- the numbers of the cases: the bytes' own, which the enums know nothing of

fn region_number(region: Region) -> u8
    ensures { result ≡ region_number region }
{
    match region {
        Region::Source => 1,
        Region::Target => 2,
    }
}

fn route_number(route: Route) -> u8
    ensures { result ≡ route_number route }
{
    match route {
        Route::Whole => 1,
        Route::Suffix => 2,
        Route::Listed => 3,
    }
}

// 1 where there is a number, 0 where there is none.
fn given<T: Copy>(number: Option<T>) -> u8
    ensures { result ≡ given number }
{
    u8::from(number.is_some())
}

// ---- a setup's bytes

// Some bytes into the room from a place on.
fn put(room: &mut [u8; 110], at: usize, part: &[u8])
    requires { at + length part.now ≤ 110 }
    ensures { room.new ≡ sets room.old at part.now }
{
    room[at..at + part.len()].copy_from_slice(part);
}

// The field of tag 7 or 8: how many of its 32 places are in use, and the places.
fn put_places(room: &mut [u8; 110], at: usize, tag: u8, len: u8, places: [u8; 32])
    requires { (at + 36 ≤ 110) × (tag < 256) }
    ensures { (room.new ≡ sets room.old at (field tag (len ∷ places))) × (length places ≡ 32) }
{
    put(room, at, &[tag, 0, 33, len]);
    put(room, at + 4, &places);
}

// The fields of tags 1 to 6, of these numbers.
fn head_of(
    region: u8,
    source: u32,
    target: u32,
    route: u8,
    placed: u8,
    kind: u8,
    given: u8,
    outer: u32,
) -> [u8; 35]
    ensures { result ≡ head_of region source target route placed kind given outer }
{
    let [s3, s2, s1, s0] = source.to_be_bytes();
    let [t3, t2, t1, t0] = target.to_be_bytes();
    let [o3, o2, o1, o0] = outer.to_be_bytes();
    [
        1u8, 0, 1, region, 2, 0, 4, s3, s2, s1, s0, 3, 0, 4, t3, t2, t1, t0, 4, 0, 1, route, 5, 0,
        2, placed, kind, 6, 0, 5, given, o3, o2, o1, o0,
    ]
}

fn head(s: Setup) -> [u8; 35]
    ensures { result ≡ head s }
{
    head_of(
        region_number(s.region),
        s.source,
        s.target,
        route_number(s.route),
        given(s.placing),
        s.placing.unwrap_or(0),
        given(s.outer),
        s.outer.unwrap_or(0),
    )
}

// The 110 bytes of any setup.
pub fn setup_bytes(s: Setup) -> [u8; 110]
    ensures { result ≡ setup_bytes s }
{
    let dialled = s.dialled;
    let list = s.list;
    let symbols = dialled.symbols;
    let types = list.types;
    let mut room = [0u8; 110];
    let front = head(s);
    put(&mut room, 0, &front);
    put_places(&mut room, 35, 7, dialled.len, symbols);
    put_places(&mut room, 71, 8, list.len, types);
    put(&mut room, 107, &[127u8, 0, 0]);
    room
}

// ---- the setup of 110 bytes

// The number of four bytes at a place. (As in planread, which this crate does not rest on.)
fn four(bytes: &[u8], at: usize) -> u32
    requires { at + 4 ≤ length bytes.now }
    ensures { result ≡ number (take 4 (drop at bytes.now)) }
{
    u32::from_be_bytes([bytes[at], bytes[at + 1], bytes[at + 2], bytes[at + 3]])
}

// The 32 bytes from a place on.
fn places(bytes: &[u8], at: usize) -> [u8; 32]
    requires { at + 32 ≤ length bytes.now }
    ensures { result ≡ take 32 (drop at bytes.now) }
{
    let mut all = [0u8; 32];
    all.copy_from_slice(&bytes[at..at + 32]);
    all
}

fn region_said(n: u8) -> Region
    ensures { result ≡ region_said n }
{
    if n == 1 {
        Region::Source
    } else {
        Region::Target
    }
}

fn route_said(n: u8) -> Route
    ensures { result ≡ route_said n }
{
    match n {
        1 => Route::Whole,
        2 => Route::Suffix,
        _ => Route::Listed,
    }
}

// None where 0 stands before the number.
fn said<T: Copy>(given: u8, number: T) -> Option<T>
    ensures { result ≡ said given number }
{
    (given != 0).then_some(number)
}

// What stands at the place of each field.
fn fields_in(b: &[u8]) -> Setup
    requires { 110 ≤ length b.now }
    ensures { result ≡ fields_in b.now }
{
    Setup {
        region: region_said(b[3]),
        source: four(b, 7),
        dialled: Dialled {
            symbols: places(b, 39),
            len: b[38],
        },
        target: four(b, 14),
        route: route_said(b[21]),
        list: Zone {
            types: places(b, 75),
            len: b[74],
        },
        placing: said(b[25], b[26]),
        outer: said(b[30], four(b, 31)),
    }
}

// Not `==`, which leaves at the first. It goes on past a difference: a loop with one way out is compiled to few steps of many bytes each.
fn same(a: &[u8], b: &[u8]) -> bool
    requires { (110 ≤ length a.now) × (110 ≤ length b.now) }
    ensures { result ≡ same a.now b.now }
{
    let mut all = true;
    for i in 0usize..110usize {
        if a[i] != b[i] {
            all = false;
        }
    }
    all
}

// The setup that some bytes are; the blank setup, which is not well formed, for bytes that are no setup's.
pub fn setup_in(b: &[u8]) -> Setup
    ensures { result ≡ setup_in b.now }
{
    if b.len() != 110 {
        return setup::blank_setup();
    }
    let s = fields_in(b);
    if !same(&setup_bytes(s), b) {
        return setup::blank_setup();
    }
    s
}
