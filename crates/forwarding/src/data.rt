// What is provisioned for the two features: which types provide them, who owns which address, and what the relations belong to.
use store_script::Stored;

// The types of the feature boxes, and the features that they provide.
pub const FORWARDING: u8 = 5;

pub const SCREENING: u8 = 3;

const FORWARDS: u32 = 1;

const SCREENS: u32 = 2;

// The customers.
const ANN: u32 = 1;

const BOB: u32 = 2;

// The relations: the number of each is its place here.
pub const RELATIONS: [&str; 4] = ["targets", "screened", "names", "tallies"];

// What the second word of a relation says: whether its rows belong to customers.
const BY_CUSTOMER: u32 = 1;

const NOBODYS: u32 = 0;

const NO_FEATURE: u32 = 0;

// Nobody owns the line 200.
pub fn provisioned() -> Stored {
    let mut stored = Stored::new();
    stored.set_feature(u32::from(FORWARDING), FORWARDS);
    stored.set_feature(u32::from(SCREENING), SCREENS);
    stored.set_pair(0, 300, ANN);
    stored.set_pair(1, 555, ANN);
    stored.set_pair(2, 700, BOB);
    stored.set_relation(0, FORWARDS, BY_CUSTOMER);
    stored.set_relation(1, SCREENS, BY_CUSTOMER);
    stored.set_relation(2, NO_FEATURE, BY_CUSTOMER);
    stored.set_relation(3, SCREENS, NOBODYS);
    stored
}
