// Closing a proposal: the gas and the vector with which settle accepts what a solver in floating point proposes, and how far off it is.
// Both leave the record as it is. ../specs/Closing.antt has the theorem that settle accepts what close gives.
#![tactic(auto)]

mod claims;

ghost use Rattle.std.specs.Prelude.{◌≡◌};
ghost use Rattle.vectors.specs.Columns.{Below, digester_ceilings};
ghost use Rattle.vectors.specs.Figures.{Permitted};
ghost use Rattle.closing.specs.Closing.{replaced, other_tkn, gap_between, gap_of, close_taken, close_of};

pub use claims::laws_hold;
use columns::Digester;
use plant::Plant;
use refusals::{Refusal, unless};
use vectors::{Figures, Milligrams, Ticks, Unit};

// The gas and the vector that close.
#[derive(Clone, Copy)]
pub struct Closed {
    pub gas: Milligrams,
    pub vector: [u64; 26],
}

// How far off a proposal is: COD too much, nitrogen too much, and the sin that closes above its ceiling.
#[derive(Clone, Copy)]
pub struct Gaps {
    pub cod: Milligrams,
    pub tkn: Ticks,
    pub sin: Ticks,
}

// Refusals 15, 1, 3, 7 and 8.
pub fn close(plant: Plant, d: [u64; 26]) -> Result<Closed, Refusal>
    ensures { result ≡ close_of plant d }
{
    let gaps = gap(plant, d)?;
    unless(gaps.sin == Ticks(0), Refusal::ColumnAbove)?;
    unless(gaps.cod == Milligrams(0), Refusal::CodOpen)?;
    unless(gaps.tkn == Ticks(0), Refusal::TknOpen)?;
    // by a variable: the borrow checker does not cover a field that is an array, made part of a literal
    let old = plant.digester;
    let proposal = Proposal {
        figures: plant.figures,
        old,
        new: d,
    };
    Ok(proposal.closing())
}

// Refusals 15, 1 and 3.
pub fn gap(plant: Plant, d: [u64; 26]) -> Result<Gaps, Refusal>
    ensures { result ≡ gap_of plant d }
{
    plant::usable(plant)?;
    unless(vectors::is_within(d), Refusal::ColumnAbove)?;
    // by a variable, as in close
    let old = plant.digester;
    let proposal = Proposal {
        figures: plant.figures,
        old,
        new: d,
    };
    Ok(proposal.gaps())
}

// A digester vector proposed in the place of the record's, both within their ceilings, and the record's figures, so that their totals fit.
#[derive(Clone, Copy)]
struct Proposal {
    figures: Figures,
    old: [u64; 26],
    new: [u64; 26],
    ghost permitted: { Permitted figures },
    ghost old_low: { Below digester_ceilings old },
    ghost new_low: { Below digester_ceilings new },
}

impl Proposal {
    // How far off it is.
    fn gaps(self) -> Gaps
        ensures { result ≡ gap_between self.figures self.old self.new }
    {
        let cod = vectors::cod(self.old);
        let proposed = vectors::cod(self.new);
        let tkn = vectors::tkn(self.figures, self.old);
        let others = self.other_tkn();
        Gaps {
            cod: proposed.less(cod),
            tkn: others.less(tkn),
            sin: tkn.less(others).less(Ticks(vectors::TICK_CEILING)),
        }
    }

    // The TKN of all columns but sin.
    fn other_tkn(self) -> Ticks
        ensures { result.0 ≡ other_tkn self.figures self.new }
    {
        let tkn = vectors::tkn(self.figures, self.new);
        tkn.less(Ticks(self.new[22]))
    }

    // What closes it.
    fn closing(self) -> Closed
        ensures { result ≡ close_taken self.figures self.old self.new }
    {
        let gas = vectors::cod(self.old).less(vectors::cod(self.new));
        let tkn = vectors::tkn(self.figures, self.old);
        let sin = tkn.less(self.other_tkn());
        let vector = with_closing(self.new, sin, Milligrams(self.old[24]), Ticks(self.old[25]));
        Closed { gas, vector }
    }
}

// A digester vector with other sin, co and cn.
fn with_closing(d: [u64; 26], sin: Ticks, co: Milligrams, cn: Ticks) -> [u64; 26]
    ensures { result ≡ replaced d sin.0 co.0 cn.0 }
{
    <[u64; 26]>::from(Digester {
        sin,
        co,
        cn,
        ..Digester::from(d)
    })
}
