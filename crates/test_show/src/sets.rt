// Sets of figures that the tests try, as nine numbers: ixb ixe nxc ni naa nbac fxi fch fli.

// A dairy's, made for these tests: all nine differ, so that one taken for another shows.
pub const DAIRY: [u64; 9] = [850, 640, 410, 220, 1120, 910, 7350, 1200, 5800];

// The greatest that is permitted.
pub const GREATEST: [u64; 9] = [10000; 9];

// The least: all zero but nxc, naa and fch.
pub const LEAST: [u64; 9] = [0, 0, 1, 0, 1, 0, 0, 1, 0];

// The same with fli in the place of fch.
pub const LEAST_BY_LIPID: [u64; 9] = [0, 0, 1, 0, 1, 0, 0, 0, 1];

// Where a figure stands.
pub const NXC: usize = 2;

pub const NAA: usize = 4;

pub const FCH: usize = 7;

pub const FLI: usize = 8;
