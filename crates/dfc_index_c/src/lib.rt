// The archive of the index of a plan, as include/dfc.h declares it: what a C program calls is here by its name, and does what the crate `dfc_index` does.
#![tactic(auto)]

ghost use Rattle.std.specs.Prelude.{◌≡◌};
ghost use Rattle.dfc_index.specs.Files.{file_built, index_built, file_updated, index_updated, room_updated, listed};

use answers::Answer;
use dfc_index::Listed;

// The index of the plan of a file. Beside a refusal of the file it stays as it was.
#[unsafe(no_mangle)]
pub extern "C" fn dfc_index_build(file: &[u8], index: &mut [[u32; 257]; 64]) -> Answer
    ensures { (result ≡ file_built file.now) × (index.new ≡ index_built file.now index.old) }
{
    dfc_index::dfc_index_build(file, index)
}

// Who subscribes to a type in a region: where they stand in the index, and how many they are.
#[unsafe(no_mangle)]
pub extern "C" fn dfc_index_look(index: &[[u32; 257]; 64], region: u8, of_type: u32) -> Listed
    ensures { result ≡ listed index.now region of_type }
{
    dfc_index::dfc_index_look(index, region, of_type)
}

// Gives the subscriber of an address other sets, in the lent index and in the file that is written into the room.
#[unsafe(no_mangle)]
pub extern "C" fn dfc_index_update(
    file: &[u8],
    index: &mut [[u32; 257]; 64],
    address: u32,
    source: u32,
    target: u32,
    room: &mut [u8],
) -> Answer
    ensures { (result ≡ file_updated file.now index.old address source target room.old)
        × (index.new ≡ index_updated file.now index.old address source target room.old)
        × (room.new ≡ room_updated file.now index.old address source target room.old) }
{
    dfc_index::dfc_index_update(file, index, address, source, target, room)
}
