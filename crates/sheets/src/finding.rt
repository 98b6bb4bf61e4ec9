// An entry of a sheet, and what it comes to at its column.
ghost use Rattle.std.specs.Prelude.{◌≡◌};
ghost use Rattle.sheets.specs.Value.{reading_of, count, limit};

use crate::value::Scale;
use refusals::Refusal;

// A measured value, a result below a detection limit with that limit, or not sampled: as it is sent, in grams or moles, and as it is
// counted.
#[derive(Clone, Copy)]
pub enum Finding<T> {
    Measured(T),
    BelowLimit(T),
    NotSampled,
}

impl Finding<f32> {
    // By a column's scale. Refusals 13 and 14.
    pub(crate) fn read(self, scale: Scale) -> Result<Finding<u64>, Refusal>
        ensures { result ≡ reading_of scale.per_unit scale.ceiling self }
    {
        Ok(match self {
            Finding::Measured(x) => Finding::Measured(scale.count(x)?),
            Finding::BelowLimit(x) => Finding::BelowLimit(scale.count(x)?),
            Finding::NotSampled => Finding::NotSampled,
        })
    }
}

impl Finding<u64> {
    // A measured value is what is counted.
    pub(crate) fn count(self) -> u64
        ensures { result ≡ count self }
    {
        match self {
            Finding::Measured(n) => n,
            Finding::BelowLimit(_) => 0,
            Finding::NotSampled => 0,
        }
    }

    // A result below its limit counts as zero, and the limit's count is told.
    pub(crate) fn limit(self) -> u64
        ensures { result ≡ limit self }
    {
        match self {
            Finding::Measured(_) => 0,
            Finding::BelowLimit(n) => n,
            Finding::NotSampled => 0,
        }
    }
}
