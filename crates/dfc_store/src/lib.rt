// Operational data for programs in other languages: numbers and lent words, over a plan file. A box is named by its type and address, so that every operation works out by itself what is open to it. The header is include/dfc.h; the crate `dfc_store_c` makes the archive.
#![tactic(auto)]

ghost use Rattle.std.specs.Prelude.{◌≡◌};
ghost use Rattle.store.specs.Operations.{read, write, delete};
ghost use Rattle.dfc_store.specs.Said.{known_in, told_of, rows_told_of};

use answers::{Answer, answered};
use refusal::Refusal;
use store::Who;

// Who a box is to the store by the plan of a file, or the refusal of what is no plan file.
fn who_in(
    file: &[u8],
    features: &[u32; 32],
    owners: &[u32; 512],
    t: u8,
    address: u32,
) -> Result<Who, Refusal>
    ensures { result ≡ known_in file.now features.now owners.now t address }
{
    let shown = planread::scan(file, address, 0)?;
    let existing = shown.types.existing;
    Ok(owners::who_by(existing, shown.first.kind, features, owners, t, address))
}

// The number of the row of this relation and key that is open to the box.
#[unsafe(no_mangle)]
pub extern "C" fn dfc_data_read(
    file: &[u8],
    features: &[u32; 32],
    owners: &[u32; 512],
    of_type: u8,
    address: u32,
    relations: &[u32; 128],
    rows: &[u32; 4096],
    relation: u32,
    key: u32,
) -> Answer
    ensures { result ≡ told_of (known_in file.now features.now owners.now of_type address) relations.now rows.now (read relation key) }
{
    match who_in(file, features, owners, of_type, address) {
        Ok(who) => answered(store::read(relations, rows, who, relation, key).map(u64::from)),
        Err(r) => answers::refused(r),
    }
}

// The number written into that row, or the row added.
#[unsafe(no_mangle)]
pub extern "C" fn dfc_data_write(
    file: &[u8],
    features: &[u32; 32],
    owners: &[u32; 512],
    of_type: u8,
    address: u32,
    relations: &[u32; 128],
    rows: &mut [u32; 4096],
    relation: u32,
    key: u32,
    number: u32,
) -> Answer
    ensures { (result ≡ told_of (known_in file.now features.now owners.now of_type address) relations.now rows.old (write relation key number))
        × (rows.new ≡ rows_told_of (known_in file.now features.now owners.now of_type address) relations.now rows.old (write relation key number)) }
{
    match who_in(file, features, owners, of_type, address) {
        Ok(who) => answered(store::write(relations, rows, who, relation, key, number).map(|()| 0)),
        Err(r) => answers::refused(r),
    }
}

// That row deleted.
#[unsafe(no_mangle)]
pub extern "C" fn dfc_data_delete(
    file: &[u8],
    features: &[u32; 32],
    owners: &[u32; 512],
    of_type: u8,
    address: u32,
    relations: &[u32; 128],
    rows: &mut [u32; 4096],
    relation: u32,
    key: u32,
) -> Answer
    ensures { (result ≡ told_of (known_in file.now features.now owners.now of_type address) relations.now rows.old (delete relation key))
        × (rows.new ≡ rows_told_of (known_in file.now features.now owners.now of_type address) relations.now rows.old (delete relation key)) }
{
    match who_in(file, features, owners, of_type, address) {
        Ok(who) => answered(store::delete(relations, rows, who, relation, key).map(|()| 0)),
        Err(r) => answers::refused(r),
    }
}
