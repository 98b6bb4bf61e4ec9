// What the link sends away: the refusals of document 01's table, and of document 02.
#![tactic(auto)]

ghost use Rattle.std.specs.Prelude.{true, false, ◌≡◌, OnOk, IfErr};
ghost use Rattle.refusals.specs.Refusal.{number};
ghost use Rattle.refusals.specs.Laws.{SameLaw, NumberLaw};

// A refusal; the table's number stands behind each. 6, that more COD would be burnt than there is, is not used again (document 02, E8).
// A host or a line may give any number, and of one that the table has not, the number is all that is known.
#[derive(Clone, Copy, PartialEq, Eq)]
pub enum Refusal {
    // 1: a column of the record is above its ceiling.
    RecordAbove,
    // 2: k is not 1 to 1000.
    NotThousandths,
    // 3: a column that is received, accepted or proposed, or nitrite, is above its ceiling.
    ColumnAbove,
    // 4: a feed is short of nitrogen for its inerts.
    FeedShort,
    // 5: a return is.
    ReturnShort,
    // 7: the proposal's COD is open.
    CodOpen,
    // 8: its TKN is.
    TknOpen,
    // 9: its co or cn is.
    CarriedOpen,
    // 10: a column of a tank would pass its ceiling.
    TankAbove,
    // 11: a line is no form.
    NoForm,
    // 12: the buffer for an answer, or for a line, is short.
    ShortBuffer,
    // 13: a value of a sheet is negative, infinite or no number.
    NoAmount,
    // 14: a count of a sheet is above its column's ceiling.
    CountAbove,
    // 15: the figures of a record, or those wished for, are no permitted set.
    NotPermitted,
    // 16: what is lent for a blend is not one to eight loads, or the two slices do not agree in length.
    NoBlend,
    Other(u64),
}

impl Refusal {
    // Its number.
    pub fn number(self) -> u64
        ensures { result ≡ number self }
    {
        match self {
            Refusal::RecordAbove => 1,
            Refusal::NotThousandths => 2,
            Refusal::ColumnAbove => 3,
            Refusal::FeedShort => 4,
            Refusal::ReturnShort => 5,
            Refusal::CodOpen => 7,
            Refusal::TknOpen => 8,
            Refusal::CarriedOpen => 9,
            Refusal::TankAbove => 10,
            Refusal::NoForm => 11,
            Refusal::ShortBuffer => 12,
            Refusal::NoAmount => 13,
            Refusal::CountAbove => 14,
            Refusal::NotPermitted => 15,
            Refusal::NoBlend => 16,
            Refusal::Other(n) => n,
        }
    }
}

// A test: the refusal where it fails.
pub fn unless(holds: bool, r: Refusal) -> Result<(), Refusal>
    ensures passed { OnOk result (holds ≡ true) }
    ensures sent { IfErr result (λ e. (holds ≡ false) × (e ≡ r)) }
{
    if holds {
        return Ok(());
    }
    Err(r)
}

// The laws of this crate, as the contract of a function that does nothing: they are proved, or the crate is not.
pub fn laws_hold()
    ensures same { SameLaw }
    ensures numbers { NumberLaw }
{}
