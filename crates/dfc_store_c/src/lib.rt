// The archive of operational data, as include/dfc.h declares it: what a C program calls is here by its name, and does what the crate `dfc_store` does.
#![tactic(auto)]

ghost use Rattle.std.specs.Prelude.{◌≡◌};
ghost use Rattle.store.specs.Operations.{read, write, delete};
ghost use Rattle.dfc_store.specs.Said.{known_in, told_of, rows_told_of};

use answers::Answer;

// The number of the row of this relation and key that is open to the box.
#[unsafe(no_mangle)]
pub extern "C" fn dfc_data_read(
    file: &[u8],
    features: &[u32; 32],
    owners: &[u32; 512],
    of_type: u8,
    address: u32,
    relations: &[u32; 128],
    rows: &[u32; 4096],
    relation: u32,
    key: u32,
) -> Answer
    ensures { result ≡ told_of (known_in file.now features.now owners.now of_type address) relations.now rows.now (read relation key) }
{
    dfc_store::dfc_data_read(
        file, features, owners, of_type, address, relations, rows, relation, key,
    )
}

// The number written into that row, or the row added.
#[unsafe(no_mangle)]
pub extern "C" fn dfc_data_write(
    file: &[u8],
    features: &[u32; 32],
    owners: &[u32; 512],
    of_type: u8,
    address: u32,
    relations: &[u32; 128],
    rows: &mut [u32; 4096],
    relation: u32,
    key: u32,
    number: u32,
) -> Answer
    ensures { (result ≡ told_of (known_in file.now features.now owners.now of_type address) relations.now rows.old (write relation key number))
        × (rows.new ≡ rows_told_of (known_in file.now features.now owners.now of_type address) relations.now rows.old (write relation key number)) }
{
    dfc_store::dfc_data_write(
        file, features, owners, of_type, address, relations, rows, relation, key, number,
    )
}

// That row deleted.
#[unsafe(no_mangle)]
pub extern "C" fn dfc_data_delete(
    file: &[u8],
    features: &[u32; 32],
    owners: &[u32; 512],
    of_type: u8,
    address: u32,
    relations: &[u32; 128],
    rows: &mut [u32; 4096],
    relation: u32,
    key: u32,
) -> Answer
    ensures { (result ≡ told_of (known_in file.now features.now owners.now of_type address) relations.now rows.old (delete relation key))
        × (rows.new ≡ rows_told_of (known_in file.now features.now owners.now of_type address) relations.now rows.old (delete relation key)) }
{
    dfc_store::dfc_data_delete(
        file, features, owners, of_type, address, relations, rows, relation, key,
    )
}
