// The plan of a switchboard: which box types there are, how they are ordered, and who subscribes to what. The tests of its rules are in the crates `rules` and `soundness`.
#![tactic(auto)]

ghost use Rattle.std.specs.Prelude.{◌≡◌, min};
ghost use Rattle.plan.specs.Parts.{of_region, legal, given, no_subscriber};
ghost use Rattle.plan.specs.Find.{lookup, holder_at, seen};

// A region of a usage: the boxes of the caller's address, and those of the callee's.
#[derive(Clone, Copy, PartialEq, Eq, Debug)]
pub enum Region {
    Source,
    Target,
}

impl Region {
    // Of what the source region has and what the target region has, what this region has.
    pub fn of<T: Drop>(self, source: T, target: T) -> T
        ensures { result ≡ of_region self source target }
    {
        match self {
            Region::Source => source,
            Region::Target => target,
        }
    }
}

// The five sets of types, in the order of the plan file: bit t for the type t.
#[derive(Clone, Copy)]
pub struct Types {
    pub existing: u32,
    pub bound: u32,
    pub reversible: u32,
    pub source_choice: u32,
    pub target_choice: u32,
}

// An address of the plan: its kind (1 line, 2 trunk, 3 resource, 4 mobile), what it subscribes to in each region, and its box numbers,
// of which the first count places are in use. The kind stays a number and the count stands beside four places, since a plan may say any: rules L10 and L12 test them, and the memory is fixed.
#[derive(Clone, Copy)]
pub struct Subscriber {
    pub address: u32,
    pub source: u32,
    pub target: u32,
    pub boxes: [u16; 4],
    pub kind: u8,
    pub count: u8,
}

// Row t of an order holds the types that t comes before. The first count places of subscribers are in use; the memory is fixed, and a count above 256 breaks a rule as any other number may.
#[derive(Clone, Copy)]
pub struct Plan {
    pub types: Types,
    pub source_order: [u32; 32],
    pub target_order: [u32; 32],
    pub subscribers: [Subscriber; 256],
    pub count: u16,
}

// What a plan shows to an operation on one setup, which asks for two addresses: the types, the two orders, and the subscribers of the two addresses, all zero where nobody has one. It is a
// twentieth of the plan, so that who has it need not hand a plan on. Nobody is all zero and no `Option`: so `seen` (plan/Find) says it, and a test of the kind or the address refuses it as any other.
#[derive(Clone, Copy)]
pub struct Seen {
    pub types: Types,
    pub source_order: [u32; 32],
    pub target_order: [u32; 32],
    pub first: Subscriber,
    pub second: Subscriber,
}

// ---- numbers

// Whether a number can be an address: 0, which is none, or 1 to 999,999,999.
pub fn legal(address: u32) -> bool
    ensures { result ≡ legal address }
{
    address <= 999_999_999
}

// Whether a number can be somebody's address.
pub fn given(address: u32) -> bool
    ensures { result ≡ given address }
{
    legal(address) && address != 0
}

// ---- the look-up

// How many places of a plan with this count are looked at. (planwrite has the same by itself: one line is less than a public function.)
fn used(count: u16) -> usize
    ensures { result ≡ min count 256 }
{
    usize::from(count).min(256)
}

// The look-up of an address, in any plan: the first place in use that has it. Nobody has 0, or a number that is no address.
pub fn find(plan: Plan, address: u32) -> Option<usize>
    ensures { result ≡ lookup plan address }
{
    if !given(address) {
        return None;
    }
    plan.subscribers[..used(plan.count)]
        .iter()
        .position(|s| s.address == address)
}

// ---- what a plan shows

// What stands in a place that nobody has: all zero.
pub fn no_subscriber() -> Subscriber
    ensures { result ≡ no_subscriber }
{
    Subscriber {
        address: 0,
        source: 0,
        target: 0,
        boxes: [0; 4],
        kind: 0,
        count: 0,
    }
}

// The subscriber of an address; all zero where nobody has it.
fn holder(plan: Plan, address: u32) -> Subscriber
    ensures { result ≡ holder_at plan address }
{
    let Some(i) = find(plan, address) else {
        return no_subscriber();
    };
    plan.subscribers[i]
}

// What any plan shows of two addresses.
pub fn look(plan: Plan, first: u32, second: u32) -> Seen
    ensures { result ≡ seen plan first second }
{
    let source_order = plan.source_order;
    let target_order = plan.target_order;
    Seen {
        types: plan.types,
        source_order,
        target_order,
        first: holder(plan, first),
        second: holder(plan, second),
    }
}
