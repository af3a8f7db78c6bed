// Operational data (02, ask 12; manual 7): relations of data rows in lent memory of plain numbers, and what a box may do with a data row: read it, write it, delete it.
// What each word means is said in specs/Words.antt. C lends plain words (`dfc_data_read`): four to a row, two to a relation, so a place goes by number.
#![tactic(auto)]

ghost use Rattle.std.specs.Prelude.{◌≡◌, false, ℕ, ◌+◌, ◌<◌, ◌≤◌, MatchOption};
ghost use Rattle.store.specs.Words.{relation, data_row, data_row_at, is_for, with_row, first_for};
ghost use Rattle.store.specs.Access.{whose, access_to, access_in};
ghost use Rattle.store.specs.Operations.{effect, number_read, done, read as reads, write as writes, delete as deletes};
ghost use Rattle.store.specs.Seen.{Stops};

use refusal::Refusal;

// A box as the store knows it: the feature that its type provides, and the customer who owns its address; 0 for none, as in the lent words, which they are compared with.
// For the crate `owners`, which makes it of a plan: any two numbers are taken as the box's.
#[derive(Clone, Copy)]
pub struct Who {
    pub feature: u32,
    pub owner: u32,
}

// What a data row is found by.
#[derive(Clone, Copy)]
struct Named {
    mark: u32,
    owner: u32,
    key: u32,
}

// ---- who may use what: no rows of a relation, or those of one owner; 0 is the owner of rows that belong to nobody

// The rows of a relation that a box may use, where the feature does not forbid it.
#[tactic(auto, unfolding(crate::specs::Access::whose))]
fn whose(customers: u32, who: Who) -> Option<u32>
    ensures { result ≡ whose customers who }
{
    if customers == 0 {
        return Some(0);
    }
    let owner = who.owner;
    if owner == 0 {
        return None;
    }
    Some(owner)
}

#[tactic(auto, unfolding(crate::specs::Access::access_to))]
fn access_to(feature: u32, customers: u32, who: Who) -> Option<u32>
    ensures { result ≡ access_to (relation feature customers) who }
{
    if feature == 0 && customers == 0 {
        return None; // it belongs to neither
    }
    if feature != 0 && feature != who.feature {
        return None;
    }
    whose(customers, who)
}

// The rows of the relation r that a box may use.
#[tactic(auto, unfolding(crate::specs::Access::access_in, crate::specs::Words::relation_at))]
pub fn access_in(relations: &[u32; 128], who: Who, r: u32) -> Option<u32>
    ensures { result ≡ access_in relations.now who r }
{
    if 64 <= r {
        return None;
    }
    let at = 2 * (r as usize);
    access_to(relations[at], relations[at + 1], who)
}

// ---- the places

// Whether the data row at a place is the one that is meant.
#[tactic(auto, unfolding(crate::specs::Words::is_for, crate::specs::Words::data_row_at))]
fn is_for(rows: &[u32; 4096], i: usize, row: Named) -> bool
    requires { i < 1024 }
    ensures { result ≡ is_for row.mark row.owner row.key (data_row_at rows.now i) }
{
    let at = 4 * i;
    rows[at] == row.mark && rows[at + 1] == row.owner && rows[at + 2] == row.key
}

// The lowest place that has it, looked for from a place on, where no lower one has it.
fn row_from(rows: &[u32; 4096], from: usize, row: Named) -> Option<usize>
    requires { from ≤ 1024 }
    ensures { ((j : ℕ) → j < from → is_for row.mark row.owner row.key (data_row_at rows.now j) ≡ false) → MatchOption result (1024 ≤ first_for rows.now row.mark row.owner row.key) (λ i. (i ≡ first_for rows.now row.mark row.owner row.key) × (i < 1024)) }
{
    (from..1024usize).find(|i| is_for(rows, *i, row))
}

// The lowest place that has it or is free. So a write looks at each place once.
fn stop(rows: &[u32; 4096], row: Named) -> Option<usize>
    ensures { MatchOption result (Stops rows.now row.mark row.owner row.key 1024) (λ i. Stops rows.now row.mark row.owner row.key i × (i < 1024)) }
{
    (0..1024usize).find(|i| rows[4 * *i] == 0 || is_for(rows, *i, row))
}

// A data row stored at a place.
fn put_row(rows: &mut [u32; 4096], i: usize, row: Named, number: u32)
    requires { i < 1024 }
    ensures { rows.new ≡ with_row rows.old i (data_row row.mark row.owner row.key number) }
{
    let at = 4 * i;
    rows[at] = row.mark;
    rows[at + 1] = row.owner;
    rows[at + 2] = row.key;
    rows[at + 3] = number;
}

// ---- what a box does. The three begin alike, with two statements; a function for these would need a contract that names the row, and be no plainer.

// The number of the row of this relation and key that is open to the box; 70.
pub fn read(
    relations: &[u32; 128],
    rows: &[u32; 4096],
    who: Who,
    r: u32,
    key: u32,
) -> Result<u32, Refusal>
    ensures { result ≡ number_read (effect relations.now rows.now who (reads r key)).answer }
{
    let Some(owner) = access_in(relations, who, r) else {
        return Err(Refusal::Closed);
    };
    let row = Named {
        mark: r + 1,
        owner,
        key,
    };
    let Some(i) = row_from(rows, 0, row) else {
        return Err(Refusal::Closed);
    };
    Ok(rows[4 * i + 3])
}

// The number written into that row, or the row added at the lowest free place; 70, 71.
pub fn write(
    relations: &[u32; 128],
    rows: &mut [u32; 4096],
    who: Who,
    r: u32,
    key: u32,
    number: u32,
) -> Result<(), Refusal>
    ensures { (result ≡ done (effect relations.now rows.old who (writes r key number)).answer)
        × (rows.new ≡ (effect relations.now rows.old who (writes r key number)).rows) }
{
    let Some(owner) = access_in(relations, who, r) else {
        return Err(Refusal::Closed);
    };
    let row = Named {
        mark: r + 1,
        owner,
        key,
    };
    let Some(i) = stop(rows, row) else {
        return Err(Refusal::StoreFull);
    };
    if rows[4 * i] != 0 {
        put_row(rows, i, row, number);
        return Ok(());
    }
    // the place is free, and the row may stand further on
    let at = row_from(rows, i + 1, row).unwrap_or(i);
    put_row(rows, at, row, number);
    Ok(())
}

// That row deleted, and its place free; 70.
pub fn delete(
    relations: &[u32; 128],
    rows: &mut [u32; 4096],
    who: Who,
    r: u32,
    key: u32,
) -> Result<(), Refusal>
    ensures { (result ≡ done (effect relations.now rows.old who (deletes r key)).answer)
        × (rows.new ≡ (effect relations.now rows.old who (deletes r key)).rows) }
{
    let Some(owner) = access_in(relations, who, r) else {
        return Err(Refusal::Closed);
    };
    let row = Named {
        mark: r + 1,
        owner,
        key,
    };
    let Some(i) = row_from(rows, 0, row) else {
        return Err(Refusal::Closed);
    };
    let free = Named {
        mark: 0,
        owner: 0,
        key: 0,
    };
    put_row(rows, i, free, 0);
    Ok(())
}
