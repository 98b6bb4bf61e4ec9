// Several hauled loads in one blend: a slice of their columns and one of their k, as C lends them.
ghost use Rattle.host.specs.Calls.{BlendCalled};

use crate::record::{plant_at, put_plant};

// Blend: what is drawn is taken from the loads, and neither they nor the record change where it is refused.
#[unsafe(no_mangle)]
pub extern "C" fn jilghvani_blend(columns: &mut [u64; 61], loads: &mut [u64], ks: &[u64]) -> u64
    ensures { BlendCalled columns.old loads.old ks.now result columns.new loads.new }
{
    match blends::blend(plant_at(columns), loads, ks) {
        Ok(plant) => {
            put_plant(columns, plant);
            0
        }
        Err(refusal) => refusal.number(),
    }
}
