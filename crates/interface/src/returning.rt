// Return: a digester vector becomes an ASM1 vector.
ghost use Rattle.std.specs.Prelude.{◌≡◌, ◌+◌, ◌*◌, ◌≤◌};
ghost use Rattle.vectors.specs.Columns.{Below, digester_ceilings};
ghost use Rattle.vectors.specs.Figures.{Permitted};
ghost use Rattle.columns.specs.Counts.{asm1_counts, digester_counts};
ghost use Rattle.vectors.specs.Totals.{degraders};
ghost use Rattle.interface.specs.Return.{soluble, particulate, nitrogen_of, taken, returned_vector, return_taken, return_digester, return_of};
ghost use Rattle.interface.specs.Structs.{LowDigester, nitrogen_counts};

use columns::{Asm1, Digester};
use refusals::Refusal;
use vectors::{Figures, Milligrams, Ticks, Unit, nitrogen};

// What an accepted return conversion gives: its vector and the COD stripped.
#[derive(Clone, Copy)]
pub struct Returned {
    pub stripped: Milligrams,
    pub vector: [u64; 13],
}

// The return conversion. Refusal 5. It asks for what `feed_of` asks.
pub fn return_of(f: Figures, c: [u64; 26]) -> Result<Returned, Refusal>
    requires { (Permitted f) × (Below digester_ceilings c) }
    ensures { result ≡ return_of f c }
{
    let digested = Digested {
        figures: f,
        vector: Digester::from(c),
    };
    digested.convert()
}

// A digester vector by its names, and the figures of its conversion, so that the sums fit.
#[derive(Clone, Copy)]
struct Digested {
    figures: Figures,
    vector: Digester,
    ghost permitted: { Permitted figures },
    ghost low: { LowDigester vector },
}

// The conversion and its parts. A method that reads many columns names the vector once.
impl Digested {
    // 5 where xnd, snd and snh hold less than ixe × xi, else the conversion.
    fn convert(self) -> Result<Returned, Refusal>
        ensures { result ≡ return_digester self.figures (digester_counts self.vector) }
    {
        let n = self.nitrogen_held();
        let q = nitrogen(self.figures.ixe, self.vector.xi);
        if n.xnd.plus(n.snd).plus(n.snh) < q {
            return Err(Refusal::ReturnShort);
        }
        Ok(self.told(n.without(q)))
    }

    // What an accepted conversion tells, with its vector. The nitrogen is what ixe × xi leaves.
    fn told(self, left: Nitrogen) -> Returned
        requires { nitrogen_counts left ≡ taken (self.figures.ixe * self.vector.xi.0) (nitrogen_of self.figures (digester_counts self.vector)) }
        ensures { result ≡ return_taken self.figures (digester_counts self.vector) }
    {
        let d = self.vector;
        Returned {
            stripped: d.sh2.plus(d.sch4),
            vector: <[u64; 13]>::from(self.returned_vector(left)),
        }
    }

    // The nitrogen before ixe × xi is taken.
    fn nitrogen_held(self) -> Nitrogen
        ensures { (nitrogen_counts result ≡ nitrogen_of self.figures (digester_counts self.vector)) × (result.xnd.0 + result.snd.0 + result.snh.0 ≤ 130000000000000000) }
    {
        let f = self.figures;
        let d = self.vector;
        let composites = nitrogen(f.nxc, d.xc);
        let protein = nitrogen(f.naa, d.xpr);
        let biomass = nitrogen(f.nbac, self.degraders());
        let inert = nitrogen(f.ni, d.xi);
        let amino = nitrogen(f.naa, d.saa);
        let soluble = nitrogen(f.ni, d.si);
        Nitrogen {
            xnd: composites.plus(protein).plus(biomass).plus(inert),
            snd: amino.plus(soluble),
            snh: d.sin,
        }
    }

    // The seven degraders.
    fn degraders(self) -> Milligrams
        ensures { (result.0 ≡ degraders (digester_counts self.vector)) × (result.0 ≤ 7000000000000) }
    {
        let d = self.vector;
        d.xsu
            .plus(d.xaa)
            .plus(d.xfa)
            .plus(d.xc4)
            .plus(d.xpro)
            .plus(d.xac)
            .plus(d.xh2)
    }

    // The seven soluble columns from ssu to sac.
    fn soluble(self) -> Milligrams
        ensures { result.0 ≡ soluble (digester_counts self.vector) }
    {
        let d = self.vector;
        d.ssu
            .plus(d.saa)
            .plus(d.sfa)
            .plus(d.sva)
            .plus(d.sbu)
            .plus(d.spro)
            .plus(d.sac)
    }

    // The eleven particulate columns except xi.
    fn particulate(self) -> Milligrams
        ensures { result.0 ≡ particulate (digester_counts self.vector) }
    {
        let d = self.vector;
        d.xc.plus(d.xch)
            .plus(d.xpr)
            .plus(d.xli)
            .plus(self.degraders())
    }

    // The ASM1 vector, with its nitrogen.
    fn returned_vector(self, n: Nitrogen) -> Asm1
        ensures { asm1_counts result ≡ returned_vector (digester_counts self.vector) (nitrogen_counts n) }
    {
        let d = self.vector;
        Asm1 {
            si: d.si,
            ss: self.soluble(),
            xi: d.xi,
            xs: self.particulate(),
            xbh: Milligrams(0),
            xba: Milligrams(0),
            xp: Milligrams(0),
            so: d.co,
            sno: d.cn,
            snh: n.snh,
            snd: n.snd,
            xnd: n.xnd,
            salk: d.sic,
        }
    }
}

// Nitrogen in ASM1's three columns.
#[derive(Clone, Copy)]
pub struct Nitrogen {
    pub xnd: Ticks,
    pub snd: Ticks,
    pub snh: Ticks,
}

impl Nitrogen {
    // What is left when q is taken from xnd, then snd, then snh.
    fn without(self, q: Ticks) -> Nitrogen
        ensures { nitrogen_counts result ≡ taken q.0 (nitrogen_counts self) }
    {
        let behind_xnd = q.less(self.xnd);
        Nitrogen {
            xnd: self.xnd.less(q),
            snd: self.snd.less(behind_xnd),
            snh: self.snh.less(behind_xnd.less(self.snd)),
        }
    }
}
