//! Look-ups in a row of sixteen bytes, by vectors of sixteen lanes and of 32.
ghost use Rattle.utf_lanes.specs.Lanes.{ArePlaces, AreLookedUp};

use std::simd::prelude::*;

pub(crate) trait LookUp<const N: usize> {
    // The elements of the row at the offsets in the lanes.
    fn look_up(row: &[u8; 16], places: Simd<u8, N>) -> Simd<u8, N>
        requires { ArePlaces N places }
        ensures { AreLookedUp N row.now places.entry result };
}

impl LookUp<16> for u8x16 {
    #[inline(always)]
    fn look_up(row: &[u8; 16], places: u8x16) -> u8x16
        requires { ArePlaces 16 places }
        ensures { AreLookedUp 16 row.now places result }
    {
        u8x16::from_array(*row).swizzle_dyn(places)
    }
}

impl LookUp<32> for u8x32 {
    // The row is in a vector twice, since a look-up reads only the half that its lane is in.
    #[inline(always)]
    fn look_up(row: &[u8; 16], places: u8x32) -> u8x32
        requires { ArePlaces 32 places }
        ensures { AreLookedUp 32 row.now places result }
    {
        let once = u8x16::from_array(*row);
        let twice: u8x32 = once.shuffle(
            once,
            [
                0, 1, 2, 3, 4, 5, 6, 7, 8, 9, 10, 11, 12, 13, 14, 15, 16, 17, 18, 19, 20, 21, 22,
                23, 24, 25, 26, 27, 28, 29, 30, 31,
            ],
        );
        twice.swizzle_dyn_within::<16>(places)
    }
}
