// A plan from the words of a line: a name says where the numbers after it go.
use console::Word;
use plan::{Plan, Region, Subscriber, Types};

// More than the longest file has, which is 6,436 bytes.
pub const ROOM: usize = 6500;

// Where a number goes.
#[derive(Clone, Copy, PartialEq, Eq, Debug)]
pub enum Slot {
    Types,
    Bound,
    Reversible,
    Choice,
    // The type whose row of the order the next ones are put in.
    Row,
    Before,
    // A subscriber of this kind, at this address.
    Subscriber(u8),
    // What is said of a subscriber after its address.
    Zone,
    Box,
    BoxCount,
    // The same subscriber again, up to this address.
    UpTo,
    Count,
    Room,
    // In the file: the place of the next byte, a byte, and how many bytes stay.
    At,
    Byte,
    First,
    // After this name no number stands.
    Nowhere,
}

pub fn slot_of(name: &str) -> Option<Slot> {
    Some(match name.as_bytes() {
        b"types" => Slot::Types,
        b"bound" => Slot::Bound,
        b"reversible" => Slot::Reversible,
        b"choice" => Slot::Choice,
        b"order" => Slot::Row,
        b"before" => Slot::Before,
        b"line" => Slot::Subscriber(1),
        b"trunk" => Slot::Subscriber(2),
        b"resource" => Slot::Subscriber(3),
        b"mobile" => Slot::Subscriber(4),
        b"source" | b"target" => Slot::Zone,
        b"box" | b"boxes" => Slot::Box,
        b"boxcount" => Slot::BoxCount,
        b"to" => Slot::UpTo,
        b"count" => Slot::Count,
        b"room" => Slot::Room,
        b"byte" => Slot::At,
        b"first" => Slot::First,
        b"is" => Slot::Byte,
        b"read" | b"write" | b"check" | b"each" | b"teaching" | b"empty" | b"cut" | b"of" => {
            Slot::Nowhere
        }
        _ => return None,
    })
}

// The plan so far, and the room to write into; where the next number goes, for which region and which type's row.
#[derive(Clone, Copy)]
pub struct Draft {
    pub plan: Plan,
    pub room: usize,
    slot: Slot,
    region: Region,
    row: usize,
}

// (Also in index_trials: programs share no plans.)
fn empty_plan() -> Plan {
    Plan {
        types: Types {
            existing: 0,
            bound: 0,
            reversible: 0,
            source_choice: 0,
            target_choice: 0,
        },
        source_order: [0; 32],
        target_order: [0; 32],
        subscribers: [plan::no_subscriber(); 256],
        count: 0,
    }
}

// The set of one type.
fn only(n: u64) -> Option<u32> {
    1u32.checked_shl(u32::try_from(n).ok()?)
}

fn join_at(rows: &mut [u32; 32], row: usize, set: u32) {
    if let Some(types) = rows.get_mut(row) {
        *types |= set;
    }
}

fn place(n: u64) -> Option<usize> {
    (n < ROOM as u64).then_some(n as usize)
}

impl Draft {
    // The place of the last subscriber; no place of the plan's where it has none, or counts more than it has places.
    fn last_place(&self) -> usize {
        usize::from(self.plan.count).wrapping_sub(1)
    }

    // The last subscriber; nobody where there is none.
    fn last(&self) -> Subscriber {
        let last = self.plan.subscribers.get(self.last_place());
        last.copied().unwrap_or(plan::no_subscriber())
    }

    fn put_last(&mut self, s: Subscriber) {
        let last = self.last_place();
        if let Some(place) = self.plan.subscribers.get_mut(last) {
            *place = s;
        }
    }

    // The 257th only counts.
    fn add_subscriber(&mut self, s: Subscriber) {
        self.plan.count = self.plan.count.wrapping_add(1);
        self.put_last(s);
    }

    // The same again at each next address, at most 256 times.
    fn add_up_to(&mut self, end: u32) {
        for _ in 0..256 {
            let mut s = self.last();
            if s.address < end {
                s.address += 1;
                self.add_subscriber(s);
            }
        }
    }

    // What is said of the last subscriber.
    fn detail(&mut self, n: u64) -> Option<()> {
        let mut s = self.last();
        match (self.slot, self.region) {
            (Slot::Zone, Region::Source) => s.source |= only(n)?,
            (Slot::Zone, Region::Target) => s.target |= only(n)?,
            (Slot::Box, _) => {
                // The fifth number only counts.
                let number = u16::try_from(n).ok()?;
                let at = usize::from(s.count);
                if let Some(place) = s.boxes.get_mut(at) {
                    *place = number;
                }
                s.count = s.count.wrapping_add(1);
            }
            _ => s.count = u8::try_from(n).ok()?,
        }
        self.put_last(s);
        Some(())
    }

    fn number(&mut self, n: u64) -> Option<()> {
        match self.slot {
            Slot::Types => self.plan.types.existing |= only(n)?,
            Slot::Bound => self.plan.types.bound |= only(n)?,
            Slot::Reversible => self.plan.types.reversible |= only(n)?,
            Slot::Choice => match self.region {
                Region::Source => self.plan.types.source_choice |= only(n)?,
                Region::Target => self.plan.types.target_choice |= only(n)?,
            },
            Slot::Row => {
                only(n)?;
                self.row = n as usize;
            }
            Slot::Before => {
                let after = only(n)?;
                match self.region {
                    Region::Source => join_at(&mut self.plan.source_order, self.row, after),
                    Region::Target => join_at(&mut self.plan.target_order, self.row, after),
                }
            }
            Slot::Subscriber(kind) => {
                let mut s = plan::no_subscriber();
                s.kind = kind;
                s.address = u32::try_from(n).ok()?;
                self.add_subscriber(s);
            }
            Slot::Zone | Slot::Box | Slot::BoxCount => self.detail(n)?,
            Slot::UpTo => self.add_up_to(u32::try_from(n).ok()?),
            Slot::Count => self.plan.count = u16::try_from(n).ok()?,
            Slot::Room => self.room = place(n)?,
            Slot::At | Slot::First => {
                place(n)?;
            }
            Slot::Byte => {
                u8::try_from(n).ok()?;
            }
            Slot::Nowhere => return None,
        }
        Some(())
    }

    fn name(&mut self, name: &str) -> Option<()> {
        self.slot = slot_of(name)?;
        match name.as_bytes() {
            b"source" => self.region = Region::Source,
            b"target" => self.region = Region::Target,
            b"teaching" => self.plan = teaching::teaching_plan(),
            _ => {}
        }
        Some(())
    }
}

// Nothing where a word has no meaning here, or a number is too large for its place.
pub fn draft_of(words: &[Word]) -> Option<Draft> {
    let mut draft = Draft {
        plan: empty_plan(),
        room: 0,
        slot: Slot::Nowhere,
        region: Region::Source,
        row: 0,
    };
    for word in words {
        match word {
            Word::Number(n) => draft.number(*n)?,
            Word::Name(name) => draft.name(name)?,
            _ => return None,
        }
    }
    Some(draft)
}
