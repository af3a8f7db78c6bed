// Operational data by the plan: a box is named by its type and its address, and what it is to the store is worked out in each operation (manual 7; 02, ask 12). The features that types provide and the owners of addresses
// are lent beside the plan; specs/Who.antt says what their words mean. C lends plain words (`dfc_data_read`): one to a type, two to an owner, so a place goes by number.
#![tactic(auto)]

ghost use Rattle.std.specs.Prelude.{◌≡◌, ◌<◌, MatchOption};
ghost use Rattle.store.specs.Operations.{effect, number_read, done, read, write, delete};
ghost use Rattle.owners.specs.Who.{feature_of, pair_of, owner_in, can_be_owned, who_by, who_of};

use plan::Plan;
use refusal::Refusal;
use store::Who;

// ---- who a box is

// The feature that a type provides; 0 for a type that does not exist: the lent words and `store::Who` have 0 for none.
#[tactic(auto, unfolding(crate::specs::Who::feature_of))]
fn feature_of(existing: u32, features: &[u32; 32], t: u8) -> u32
    ensures { result ≡ feature_of existing features.now t }
{
    if typeset::has(existing, u32::from(t)) {
        features[t as usize]
    } else {
        0
    }
}

// The first pair with an address.
fn pair_of(owners: &[u32; 512], address: u32) -> Option<usize>
    ensures { MatchOption result (pair_of owners.now address ≡ 256) (λ i. (i ≡ pair_of owners.now address) × (i < 256)) }
{
    (0..256usize).find(|i| owners[2 * *i] == address)
}

// The customer of the first pair with an address; 0 where there is none, as in `feature_of`.
fn owner_in(owners: &[u32; 512], address: u32) -> u32
    ensures { result ≡ owner_in owners.now address }
{
    match pair_of(owners, address) {
        Some(i) => owners[2 * i + 1],
        None => 0,
    }
}

// Whether an address of this kind can be owned: a line's, a trunk's or a mobile's.
#[tactic(auto, unfolding(crate::specs::Who::can_be_owned))]
fn can_be_owned(kind: u8) -> bool
    ensures { result ≡ can_be_owned kind }
{
    matches!(kind, 1 | 2 | 4)
}

// A box of the type t at an address, by the types that exist and the kind of the address, 0 where nobody has it.
#[tactic(auto, unfolding(crate::specs::Who::who_by))]
pub fn who_by(
    existing: u32,
    kind: u8,
    features: &[u32; 32],
    owners: &[u32; 512],
    t: u8,
    address: u32,
) -> Who
    ensures { result ≡ who_by existing kind features.now owners.now t address }
{
    let feature = feature_of(existing, features, t);
    let owner = if can_be_owned(kind) {
        owner_in(owners, address)
    } else {
        0
    };
    Who { feature, owner }
}

// The same by any plan.
pub fn who(plan: Plan, features: &[u32; 32], owners: &[u32; 512], t: u8, address: u32) -> Who
    ensures { result ≡ who_of plan features.now owners.now t address }
{
    let shown = plan::look(plan, address, 0);
    let types = shown.types;
    let holder = shown.first;
    who_by(types.existing, holder.kind, features, owners, t, address)
}

// ---- what a box does, named by its type and address: each takes what is lent one by one, as C lends it to `dfc_store`

// The number of the row of this relation and key that is open to the box; 70.
pub fn read_as(
    plan: Plan,
    features: &[u32; 32],
    owners: &[u32; 512],
    t: u8,
    address: u32,
    relations: &[u32; 128],
    rows: &[u32; 4096],
    r: u32,
    key: u32,
) -> Result<u32, Refusal>
    ensures { result ≡ number_read (effect relations.now rows.now (who_of plan features.now owners.now t address) (read r key)).answer }
{
    let known = who(plan, features, owners, t, address);
    store::read(relations, rows, known, r, key)
}

// The number written into that row, or the row added; 70, 71.
pub fn write_as(
    plan: Plan,
    features: &[u32; 32],
    owners: &[u32; 512],
    t: u8,
    address: u32,
    relations: &[u32; 128],
    rows: &mut [u32; 4096],
    r: u32,
    key: u32,
    number: u32,
) -> Result<(), Refusal>
    ensures { (result ≡ done (effect relations.now rows.old (who_of plan features.now owners.now t address) (write r key number)).answer)
        × (rows.new ≡ (effect relations.now rows.old (who_of plan features.now owners.now t address) (write r key number)).rows) }
{
    let known = who(plan, features, owners, t, address);
    store::write(relations, rows, known, r, key, number)
}

// That row deleted; 70.
pub fn delete_as(
    plan: Plan,
    features: &[u32; 32],
    owners: &[u32; 512],
    t: u8,
    address: u32,
    relations: &[u32; 128],
    rows: &mut [u32; 4096],
    r: u32,
    key: u32,
) -> Result<(), Refusal>
    ensures { (result ≡ done (effect relations.now rows.old (who_of plan features.now owners.now t address) (delete r key)).answer)
        × (rows.new ≡ (effect relations.now rows.old (who_of plan features.now owners.now t address) (delete r key)).rows) }
{
    let known = who(plan, features, owners, t, address);
    store::delete(relations, rows, known, r, key)
}
