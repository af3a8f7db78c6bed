// What `forwarding` and `store_trials` share: a store with what is provisioned beside it, and what a box does with it under the teaching plan, to which a script may add types.
#![tactic(auto)]

use plan::Plan;
use refusal::Refusal;
use std::fmt;

// The words as operations are lent them.
#[derive(Clone, Copy)]
pub struct Stored {
    // Types that exist besides those of the teaching plan.
    pub more_types: u32,
    pub features: [u32; 32],
    pub owners: [u32; 512],
    pub relations: [u32; 128],
    pub rows: [u32; 4096],
}

// A box by its type and its address.
#[derive(Clone, Copy, PartialEq, Eq, Debug)]
pub struct FeatureBox {
    pub of_type: u8,
    pub address: u32,
}

#[derive(Clone, Copy, PartialEq, Eq, Debug)]
pub struct Row {
    pub mark: u32,
    pub owner: u32,
    pub key: u32,
    pub number: u32,
}

impl fmt::Display for Row {
    fn fmt<W: fmt::Write>(&self, f: &mut fmt::Formatter<W>) -> fmt::Result {
        write!(f, "mark {}, owner {}, ", self.mark, self.owner)?;
        write!(f, "key {}, number {}", self.key, self.number)
    }
}

// Pair i of the words; what is past the last is left out.
fn set_two(words: &mut [u32], i: u32, two: [u32; 2]) {
    if let Some(pair) = words.chunks_exact_mut(2).nth(i as usize) {
        pair.copy_from_slice(&two);
    }
}

impl Stored {
    pub fn new() -> Self {
        Stored {
            more_types: 0,
            features: [0; 32],
            owners: [0; 512],
            relations: [0; 128],
            rows: [0; 4096],
        }
    }

    // ---- setting words; what a place is past the last is left out

    pub fn set_relation(&mut self, r: u32, feature: u32, customers: u32) {
        set_two(&mut self.relations, r, [feature, customers]);
    }

    pub fn set_feature(&mut self, t: u32, feature: u32) {
        if let Some(word) = self.features.get_mut(t as usize) {
            *word = feature;
        }
    }

    // The plan has the type.
    pub fn add_type(&mut self, t: u32) {
        if t < 32 {
            self.more_types |= 1 << t;
        }
    }

    pub fn set_pair(&mut self, i: u32, address: u32, customer: u32) {
        set_two(&mut self.owners, i, [address, customer]);
    }

    // The row at each place from one to another, with keys that count up.
    pub fn fill_rows(&mut self, from: u32, to: u32, first: Row) {
        let mut key = first.key;
        let rows = self.rows.chunks_exact_mut(4);
        let up_to = to.saturating_add(1) as usize;
        for row in rows.take(up_to).skip(from as usize) {
            row.copy_from_slice(&[first.mark, first.owner, key, first.number]);
            key = key.wrapping_add(1);
        }
    }

    // ---- looking

    // All 0 past the last.
    pub fn row_at(&self, i: u32) -> Row {
        let at = (i as usize).saturating_mul(4);
        let word = |j: usize| self.rows.get(at.saturating_add(j)).copied().unwrap_or(0);
        Row {
            mark: word(0),
            owner: word(1),
            key: word(2),
            number: word(3),
        }
    }

    // The teaching plan, with those types more.
    fn plan(&self) -> Plan {
        let mut plan = teaching::teaching_plan();
        plan.types.existing |= self.more_types;
        plan
    }

    // ---- what a box does

    pub fn read(&self, by: FeatureBox, r: u32, key: u32) -> Result<u32, Refusal> {
        owners::read_as(
            self.plan(),
            &self.features,
            &self.owners,
            by.of_type,
            by.address,
            &self.relations,
            &self.rows,
            r,
            key,
        )
    }

    pub fn write(&mut self, by: FeatureBox, r: u32, key: u32, number: u32) -> Result<(), Refusal> {
        owners::write_as(
            self.plan(),
            &self.features,
            &self.owners,
            by.of_type,
            by.address,
            &self.relations,
            &mut self.rows,
            r,
            key,
            number,
        )
    }

    pub fn delete(&mut self, by: FeatureBox, r: u32, key: u32) -> Result<(), Refusal> {
        owners::delete_as(
            self.plan(),
            &self.features,
            &self.owners,
            by.of_type,
            by.address,
            &self.relations,
            &mut self.rows,
            r,
            key,
        )
    }
}
