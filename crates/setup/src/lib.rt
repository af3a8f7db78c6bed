// Setups: what a box sends to place a call. Which fault one has is tested in `faults`.
#![tactic(auto)]

ghost use Rattle.std.specs.Prelude.{◌≡◌, length, take};
ghost use Rattle.zone.specs.Order.{held, list_of};
ghost use Rattle.setup.specs.Dialling.{symbol, legal_string, padded, dialled, string_of, legal_dialled};
ghost use Rattle.setup.specs.Setups.{routing, other, routing_address, blank};

use plan::Region;
use zone::Zone;

// A dialled string: the first len places, as ASCII codes. The places past len are 0 in whatever is made here. The length stands beside 32 places, since the memory is fixed and a setup may say a longer one, which is refused with 5.
#[derive(Clone, Copy)]
pub struct Dialled {
    pub symbols: [u8; 32],
    pub len: u8,
}

// Which part of the routing address's zone is to be visited. The list stands beside it and not in `Listed`: a setup's bytes have a list with any route, and come back as they were (`back-and-there`, setupbytes/RoundTrip).
#[derive(Clone, Copy, PartialEq, Eq, Debug)]
pub enum Route {
    Whole,
    Suffix,
    Listed,
}

// `placing` is the type of the box that placed the call, `outer` its address; each where it is needed. Source and target are numbers: 0 is no address (`given`, plan/Parts), in a plan, in the bytes and for C.
#[derive(Clone, Copy)]
pub struct Setup {
    pub region: Region,
    pub source: u32,
    pub dialled: Dialled,
    pub target: u32,
    pub route: Route,
    pub list: Zone,
    pub placing: Option<u8>,
    pub outer: Option<u32>,
}

// What can be wrong with a setup, in the order in which it is looked for.
#[derive(Clone, Copy, PartialEq, Eq, Debug)]
pub enum Fault {
    BadAddressOrString,
    NoRoutingAddress,
    NoEndPart,
    WrongPlacing,
    WrongOuter,
}

// ---- dialled strings

impl Dialled {
    // Its symbols: the first len places, of which there are 32.
    pub fn as_slice(&self) -> &[u8]
        ensures { result.now ≡ string_of self.now }
    {
        &self.symbols[..usize::from(self.len).min(32)]
    }
}

// Whether a byte is a digit, * or #.
#[tactic(auto, unfolding(crate::specs::Dialling::symbol))]
pub fn symbol(c: u8) -> bool
    ensures { result ≡ symbol c }
{
    matches!(c, b'0'..=b'9' | b'*' | b'#')
}

// Whether any bytes are a legal string.
pub fn legal_string(s: &[u8]) -> bool
    ensures { result ≡ legal_string s.now }
{
    let few = s.len() <= 32;
    few && s.iter().all(|c| symbol(*c))
}

// Whether a string in a setup is legal.
pub fn legal_dialled(d: Dialled) -> bool
    ensures { result ≡ legal_dialled d }
{
    d.len <= 32 && legal_string(d.as_slice())
}

// The first 32 bytes, and 0 in the places that are left.
fn filled(s: &[u8]) -> [u8; 32]
    ensures { result ≡ padded (take 32 s.now) }
{
    let end = s.len().min(32);
    let mut places = [0u8; 32];
    places[..end].copy_from_slice(&s[..end]);
    places
}

// A string as a setup holds it, of any bytes: the first 32. It is for a caller that has tested the bytes with legal_string.
pub fn dial(s: &[u8]) -> Dialled
    ensures { result ≡ dialled (take 32 s.now) }
{
    let symbols = filled(s);
    Dialled {
        symbols,
        len: s.len().min(32) as u8,
    }
}

// A string as it was, with 0 past its length.
pub fn kept_string(d: Dialled) -> Dialled
    ensures { result ≡ dialled (string_of d) }
{
    dial(d.as_slice())
}

// A list as a setup holds it, of any bytes: the first 32. (As `dial`: strings and lists are two types with public fields, and what they share is `filled`.)
pub fn listed(s: &[u8]) -> Zone
    ensures { result ≡ held (take 32 s.now) }
{
    let types = filled(s);
    Zone {
        types,
        len: s.len().min(32) as u8,
    }
}

// A list as it was, with 0 past its length.
pub fn kept_list(z: Zone) -> Zone
    ensures { result ≡ held (list_of z) }
{
    listed(z.as_slice())
}

// How many types a list holds: its length, or 32 where that is more.
pub fn list_length(z: Zone) -> usize
    ensures { result ≡ length (list_of z) }
{
    z.as_slice().len()
}

// The setup in which there is nothing.
pub fn blank_setup() -> Setup
    ensures { result ≡ blank }
{
    let nothing = dial(&[]);
    let nowhere = Zone::empty();
    Setup {
        region: Region::Source,
        source: 0,
        dialled: nothing,
        target: 0,
        route: Route::Whole,
        list: nowhere,
        placing: None,
        outer: None,
    }
}

// ---- the address that a setup is routed by

// Of a source and a target, the one that the region routes by.
pub fn routing(region: Region, source: u32, target: u32) -> u32
    ensures { result ≡ routing region source target }
{
    region.of(source, target)
}

// And the other one.
pub fn other(region: Region, source: u32, target: u32) -> u32
    ensures { result ≡ other region source target }
{
    region.of(target, source)
}

// The address whose zone a setup is routed in.
pub fn routing_address(s: Setup) -> u32
    ensures { result ≡ routing_address s }
{
    routing(s.region, s.source, s.target)
}
