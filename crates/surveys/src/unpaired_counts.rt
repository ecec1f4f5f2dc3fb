//! Unpaired units of both byte orders, counted together: of each unit only the high byte shows whether it is a surrogate.
ghost use Rattle.std.specs.Prelude.{◌≡◌, ℕ, ◌+◌, ◌<◌, ◌≤◌, drop, length, slice_index};
ghost use Rattle.surveys.specs.SurveyCounts.{number};
ghost use Rattle.surveys.specs.SurveyUnits.{are_highs_unpaired, lane_count, unpaired_highs};

// The number of bytes that are compared in one step.
const ROW: usize = 32;

// The number of rows: no more than a `u8` can count.
const ROWS: usize = 96;

/// The length in bytes of the units that are counted at once: the first one, and all rows.
pub(crate) const BLOCK: usize = 2 + ROWS * ROW;

/// The numbers of units that do not go together with the one before, in each byte order.
#[derive(Clone, Copy, Drop)]
pub(crate) struct UnpairedCounts {
    pub(crate) high_first: u64,
    pub(crate) low_first: u64,
}

/// The counts of the units of the bytes, without the first unit.
pub(crate) fn unpaired_counts(bytes: &[u8]) -> UnpairedCounts
    requires { length bytes.now ≡ 3074 }
    ensures high_first { result.high_first ≡ unpaired_highs bytes.now }
    ensures low_first { result.low_first ≡ unpaired_highs (drop 1 bytes.now) }
{
    let lanes = lane_counts(bytes);
    let mut high_first = 0;
    let mut low_first = 0;
    for k in 0..ROW / 2 {
        high_first += lanes[2 * k] as u64;
        low_first += lanes[2 * k + 1] as u64;
    }
    UnpairedCounts {
        high_first,
        low_first,
    }
}

// For each offset in a row, in how many rows the byte there and the second one after it do not go together. The compiler
// compares and counts a row in one step.
#[inline(always)]
fn lane_counts(bytes: &[u8]) -> [u8; 32]
    requires { length bytes.now ≡ 3074 }
    ensures { (k : ℕ) → k < 32 → slice_index result k ≡ lane_count bytes.now k 96 }
{
    let mut lanes = [0; ROW];
    for row in 0..ROWS {
        add_row(&mut lanes, &bytes[ROW * row..ROW * row + ROW + 2]);
    }
    lanes
}

// Adds a row.
#[inline(always)]
fn add_row(lanes: &mut [u8; 32], row: &[u8])
    requires few { (k : ℕ) → k < 32 → slice_index lanes.old k < 255 }
    requires row { length row.now ≡ 34 }
    ensures { (k : ℕ) → k < 32 → slice_index lanes.new k ≡ slice_index lanes.old k + number (are_highs_unpaired (slice_index row.now k) (slice_index row.now (k + 2))) }
{
    for k in 0..ROW {
        lanes[k] += are_unpaired(row[k], row[k + 2]) as u8;
    }
}

// Returns true if only one of two units is half of a pair, as their high bytes show: the first as its beginning, or the
// second as its end.
#[inline(always)]
#[tactic(auto, unfolding(crate::specs::SurveyUnits::are_highs_unpaired))]
fn are_unpaired(before: u8, high: u8) -> bool
    ensures { result ≡ are_highs_unpaired before high }
{
    (0xd8 <= before && before < 0xdc) != (0xdc <= high && high < 0xe0)
}
